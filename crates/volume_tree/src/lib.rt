// A volume's entries (document 01, "Geometry and stored form"): the entry of an object's number, the children of a directory
// and the search of a name.
#![tactic(auto)]

pub mod entries;
pub mod numbers;
pub mod search;
