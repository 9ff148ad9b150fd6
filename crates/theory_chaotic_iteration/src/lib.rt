// No code: chaotic iteration, gates evaluated one at a time in any order, comes to rest at the same fixpoint
// (SPECIFICATION 3.5).
#![tactic(auto)]
