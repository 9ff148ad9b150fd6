// Input constraints: the never lines of a text in form (SPECIFICATION 1.3), where they stand and what they tell:
// refusals 4 and 5 among them, and their words in a stored block. A line has no limit of pairs but the text's length,
// so an operation lends a table of MAX_PAIRS names to what reads a line; with no line to read it makes none.
#![tactic(auto)]

use netlist::Refusal;

pub mod lines;
pub mod read;

// Where the lines stand: how many inputs stand before, the place of the first, how many there are, and the place behind
// the last.
#[derive(Drop)]
pub struct NeverLines {
    pub inputs: usize,
    pub at: usize,
    pub count: usize,
    pub end: usize,
}

// What the never lines of a text tell: refusals 4 and 5 among them.
#[derive(Drop)]
pub struct NeverTold {
    pub repeat: Result<(), Refusal>,
    pub outside: Result<(), Refusal>,
}

// What one never line tells: refusals 4 and 5 in it, and its two words in a stored block.
#[derive(Drop)]
pub struct LineTold {
    pub repeat: Result<(), Refusal>,
    pub outside: Result<(), Refusal>,
    pub defined: u16,
    pub ones: u16,
}
