// Pairs ` (NAME VALUE)` of a line in form, whatever word the line begins with: tables of them, and what they say of a
// block's inputs.
#![tactic(auto)]

pub mod given;
pub mod numbers;
pub mod tables;
mod told;
