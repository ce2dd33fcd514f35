// List, stat and read, which "answer from the view" (document 01, "Calls"). Each answer is the result or the first refusal from
// 5 on; that the program may ask at all (3 and 4) is settled before.
#![tactic(auto)]

pub mod listing;
pub mod object;
pub mod reading;
