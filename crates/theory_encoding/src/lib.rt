// No code: the theory of the stored block. Encode and decode undo each other, and "malformed" is said rule by rule on
// the words.
#![tactic(auto)]
