// No code: the theory of unrolling loops (SPECIFICATION 6): the rendering is straight and agrees with the original.
// Unrolling a loop of gates by copies is the way of Edwards, "Making cyclic circuits acyclic" (2003).
#![tactic(auto)]
