// An entry of a volume (document 01, "Geometry and stored form"): its fields, and what is written of it.
#![tactic(auto)]

// "n entries of 68 + 1,024 × b bytes": where the file length and the data begin in an entry.
pub const LENGTH_AT: usize = 64;

pub const DATA_AT: usize = 68;

// "kind (1 byte: 0 free, 1 file, 2 directory)".
pub const FREE: usize = 0;

pub const FILE: usize = 1;

pub const DIRECTORY: usize = 2;

pub mod field;
pub mod write;
