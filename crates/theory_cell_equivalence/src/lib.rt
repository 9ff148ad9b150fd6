// No code: what the answers of CompareCells say (SPECIFICATION 7.19).
#![tactic(auto)]
