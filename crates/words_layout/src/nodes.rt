// A block's nodes, operand words that name them or constants (SPECIFICATION 2.3), and the mark of an empty entry in a
// table of gates.
ghost use Rattle.std.specs.Prelude.{◌≡◌};
ghost use Rattle.prelude.specs.Lists.{IfBelow};
ghost use Rattle.words_layout.specs.Nodes.{gate_named, nodes_of};

use crate::offsets::{gates_at, gates_of, inputs_of};

// How many inputs and gates a block has, and where the first gate's words start.
#[derive(Clone, Copy)]
pub struct Nodes {
    pub inputs: usize,
    pub gates: usize,
    pub start: usize,
}

pub const CONSTANT_0: usize = 65534;

pub const CONSTANT_1: usize = 65535;

// The mark of no gate in a table of gate numbers: above every gate's number.
pub const NONE: usize = 65535;

// The gate that a word names in a block of n inputs and m gates.
pub fn gate_named(word: usize, n: usize, m: usize) -> Option<usize>
    ensures { IfBelow (gate_named n m word) m result }
{
    if word < n {
        return None;
    }
    if word - n < m { Some(word - n) } else { None }
}

// The nodes of a block.
pub fn nodes_of(words: &[u16]) -> Nodes
    ensures { result ≡ nodes_of words.now }
{
    Nodes {
        inputs: inputs_of(words),
        gates: gates_of(words),
        start: gates_at(words),
    }
}
