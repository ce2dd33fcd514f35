// What most calls ask (document 01, "Returned numbers"): lengths and form of what is lent (1 and 2), the program (3 and 4), an object
// by its number (7 to 9), and room in the log (13 and 14).
#![tactic(auto)]

pub mod lent;
pub mod object;
pub mod program;
pub mod room;
