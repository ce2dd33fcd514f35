// The words of a line of a call script: where one ends, a word as a number, with the number as it is printed, and the commands.
#![tactic(auto)]

pub mod command;
pub mod number;
pub mod word;
