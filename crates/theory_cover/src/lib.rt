// No code: covers, the prime implicants of a test of settings (SPECIFICATION 4); proofs/ has the theorems.
#![tactic(auto)]
