// The calls (document 01, "Calls" and "Returned numbers"): definitions in specs/, laws in proofs/.
#![tactic(auto)]
