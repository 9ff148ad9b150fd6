// No code: the theory of three-valued simulation (SPECIFICATION 3) as fixpoint iteration: rounds (Jacobi iteration),
// evaluation in any order (chaotic iteration), and Pass's one sweep.
#![tactic(auto)]
