// The three areas of a call script: what is written into them and shown of them, their digests, and the lengths that are lent.
#![tactic(auto)]

pub mod bytes;
pub mod digest;
pub mod length;
