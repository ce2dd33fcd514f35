// What is written of a volume's bytes: one entry, with every other byte as before, and a whole volume by format and copy.
#![tactic(auto)]

pub mod format;
pub mod write;
