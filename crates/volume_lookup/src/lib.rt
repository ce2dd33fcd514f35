// Lookup (document 01, "Names and paths" and "Calls"): the object that a path leads to, or the first refusal.
#![tactic(auto)]

pub mod lookup;
