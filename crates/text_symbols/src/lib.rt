// The symbol table of a text in form: its declared names with their places and node numbers, and those that repeat
// another.
#![tactic(auto)]

pub mod duplicates;
pub mod table;
