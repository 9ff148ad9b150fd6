// No code: the theory of strongly connected components ("groups"): reach, the components, and their topological order.
#![tactic(auto)]
