// What the calls that change names share (document 01, "Calls"): the refusal of a name's text, and the object that a name leads to.
#![tactic(auto)]

pub mod place;
pub mod text;
