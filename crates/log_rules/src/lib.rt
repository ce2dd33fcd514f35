// The log (document 01, "Geometry and stored form" and "Order and dependence"): definitions in specs/, laws in proofs/.
#![tactic(auto)]
