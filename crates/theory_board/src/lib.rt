// No code: the whole way to the lookup-cell board (SPECIFICATION 7.16).
#![tactic(auto)]
