// Bytes in a buffer: numbers read and put at a place, bytes put at a place, stretches, and bytes that are zero.
// The bytes of a block: a file of b blocks has 1,024 × b.
#![tactic(auto)]

pub const BLOCK: usize = 1024;

pub mod number;
pub mod put;
pub mod span;
pub mod zero;
