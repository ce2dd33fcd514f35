// A call script from an input, a line at a time, played up to the calls that it makes.
#![tactic(auto)]

pub mod input;
pub mod play;
