// No code: permutations of gates, the laws of Gather and Scatter (SPECIFICATION 7.17, 7.18); proofs/ has the theorems.
#![tactic(auto)]
