// Operations on a volume (document 01, "Calls" and "Returned numbers"): when one applies and what it leaves; definitions in specs/, laws in proofs/.
#![tactic(auto)]
