// No code: what Paper 13, by which a group is copied only as often as it needs, changed of Render's answers
// (specs/FewerPasses.antt), proved in proofs/.
#![tactic(auto)]
