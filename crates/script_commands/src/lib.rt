// The commands of a call script that are no calls, played on the areas, and the line that a command prints.
#![tactic(auto)]

pub mod answer;
pub mod commands;
pub mod front;
