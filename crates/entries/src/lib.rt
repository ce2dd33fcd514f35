// The claim on the entries themselves: definitions in specs/, and the table with its laws in proofs/.
#![tactic(auto)]
