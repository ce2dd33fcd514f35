// Write (document 01, "Calls"): its refusals, and the call itself.
#![tactic(auto)]

pub mod file;
pub mod write;
