// When an operation applies to a volume (document 01, "Returned numbers", its last paragraph).
#![tactic(auto)]

pub mod applies;
