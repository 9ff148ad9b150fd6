// No code: a group of gates taken out of a netlist, and another block put in its place (specs/Claim.antt).
#![tactic(auto)]
