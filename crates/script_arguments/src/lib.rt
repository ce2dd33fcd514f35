// A line of a call script, read: its command with the command's arguments.
#![tactic(auto)]

pub mod arguments;
pub mod command;
pub mod line;
