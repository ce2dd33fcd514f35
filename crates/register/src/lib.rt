// The register (document 01, "The register"): definitions in specs/ and laws in proofs/ alone.
#![tactic(auto)]
