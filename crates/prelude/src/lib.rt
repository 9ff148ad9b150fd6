// Definitions and facts on lists and numbers that the toolchain's library lacks; nothing of netlists, and no code.
#![tactic(auto)]
