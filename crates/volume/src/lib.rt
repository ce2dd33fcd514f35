// A volume (document 01, "Calls"): what an operation that applies to it leaves.
#![tactic(auto)]

pub mod apply;
