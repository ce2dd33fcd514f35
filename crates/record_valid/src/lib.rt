// What makes a record valid, tested (document 01, "Loss record"): its numbers, and its list of objects.
#![tactic(auto)]

pub mod list;
pub mod valid;
