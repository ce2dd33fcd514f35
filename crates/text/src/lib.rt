// What the programs share: numbers as decimal digits, and an input read behind the bytes that are held.
#![tactic(auto)]

pub mod decimal;
pub mod input;
pub mod rest;
