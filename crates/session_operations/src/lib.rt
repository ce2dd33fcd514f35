// The operations that a write is (document 01, "Calls"; document 02, K1): how many they are, and their issue one after the other.
#![tactic(auto)]

pub mod across;
pub mod operations;
