// "no two share parent and name" (document 01, "Geometry and stored form"), for the entries of a volume whatever its form.
#![tactic(auto)]

pub mod digest;
pub mod twins;
