// No code: what the limit of inputs changed when it went from 10 to 12 (specs/InputLimit.antt), proved in proofs/.
#![tactic(auto)]
