// Names as numbers: packed from a text's bytes, found in a table by comparison or by an index, and the first that
// repeats one before it.
#![tactic(auto)]

pub mod index;
pub mod pack;
pub mod search;
