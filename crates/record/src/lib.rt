// Loss records (document 01, "Loss record"): the kinds with their codes and maps.
#![tactic(auto)]

pub mod kind;
