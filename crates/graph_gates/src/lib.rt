// A block's gates as a graph, decoded once: five words a gate, its operation and the places of its four operands
// (specs/Graph.antt). Searches, orders, evaluation and copies read a gate here and know nothing of the stored format.
#![tactic(auto)]

pub mod fanout;
pub mod graph;

ghost use Rattle.std.specs.Prelude.{◌≡◌, ◌+◌, ◌*◌, ◌/◌, ◌%◌, ◌≤◌, ◌<◌, length, get_or};
ghost use Rattle.std.proofs.lemmas.List.Edits.{sets};
ghost use Rattle.netlist.specs.Limits.{max_inputs};
ghost use Rattle.netlist.specs.Kinds.{is_kind};
ghost use Rattle.netlist.specs.StoredBlock.{operand_of, decode};
ghost use Rattle.words_layout.specs.Bounds.{max_word};
ghost use Rattle.graph_gates.specs.Places.{place_of};
ghost use Rattle.graph_gates.specs.Graph.{graph_size, controlling_of, forced_of, Decoded};
ghost use Rattle.graph_gates.specs.Decoding.{WordsOf, word_place, node_words};

use words_layout::block::Block;
use words_layout::kinds::row_of;
use words_layout::limits::{MAX_GATES, MAX_INPUTS};
use words_layout::nodes::{CONSTANT_0, CONSTANT_1, Nodes, nodes_of};
use words_layout::offsets::GATE_SIZE;
use words_layout::read::word_in;

// The places of what a gate reads: the two constants, the inputs, the gates.
pub const FIRST_INPUT: usize = 2;

pub const FIRST_GATE: usize = FIRST_INPUT + MAX_INPUTS;

pub const PLACES: usize = FIRST_GATE + MAX_GATES;

// A gate's words: its operation, and a place for each slot.
pub const NODE_SIZE: usize = 5;

pub const SLOTS: usize = 4;

pub const GRAPH_WORDS: usize = NODE_SIZE * MAX_GATES;

// The weights of the controlling and of the forced value in an operation, above the kind and the operand count.
const CONTROLLING: usize = 64;

const FORCED: usize = 128;

// The controlling value of a kind and what it forces. `not` is a `nand` of one operand; `xor` and `xnor` have no
// controlling value: of theirs the first number says that an absent operand is 0, and the second whether the parity is
// inverted.
#[derive(Drop)]
pub struct Rule {
    pub controlling: usize,
    pub forced: usize,
}

// The rule of a kind, by the number that the stored format gives the kind.
pub fn rule_of(kind: usize) -> Rule
    requires { kind ≤ 6 }
    ensures { (result.controlling ≡ controlling_of kind) × (result.forced ≡ forced_of kind) × (result.controlling ≤ 1) × (result.forced ≤ 1) }
{
    match kind {
        0 => Rule {
            controlling: 0, // not
            forced: 1, // not
        },
        5 => Rule {
            controlling: 1,
            forced: 0, // xor
        },
        6 => Rule {
            controlling: 1,
            forced: 1, // xnor
        },
        _ => {
            let row = row_of(kind);
            Rule {
                controlling: row.controlling as usize,
                forced: row.forced as usize,
            }
        }
    }
}

// The place of what an operand word stands for in a block of n inputs.
pub fn place_of(word: usize, n: usize) -> usize
    requires { (n ≤ max_inputs) × (word ≤ max_word) }
    ensures { result ≡ place_of (operand_of n word) }
{
    if word < n {
        return FIRST_INPUT + word;
    }
    match word {
        CONSTANT_0 => 0,
        CONSTANT_1 => 1,
        _ => FIRST_GATE + word - n,
    }
}

// The place of operand `i` of the gate whose words start at `at`; `absent` behind its last operand.
fn slot_place(words: &[u16], n: usize, at: usize, i: usize, absent: usize) -> usize
    requires { (n ≤ max_inputs) × (i < 4) × (at + 4 < length words.now) }
    ensures { result ≡ word_place words.now n at absent i }
{
    if i < word_in(words, at) / 8 {
        let word = words[at + 1 + i] as usize;
        return place_of(word, n);
    }
    absent
}

// Writes the five words of gate `j`.
fn put_node(words: &[u16], nodes: Nodes, j: usize, graph: &mut [u16; GRAPH_WORDS])
    requires { WordsOf words.now nodes × (j < nodes.gates) }
    ensures { graph.new ≡ sets graph.old (5 * j) (node_words words.now nodes j) }
{
    let n = nodes.inputs;
    let at = nodes.start + GATE_SIZE * j;
    let head = word_in(words, at);
    let rule = rule_of(head % 8);
    let absent = 1 - rule.controlling;
    let to = NODE_SIZE * j;
    graph[to] = (head + CONTROLLING * rule.controlling + FORCED * rule.forced) as u16;
    for i in 0..SLOTS {
        graph[to + 1 + i] = slot_place(words, n, at, i, absent) as u16;
    }
}

// Writes the graph of a block.
pub fn decode_gates(block: &Block, graph: &mut [u16; GRAPH_WORDS])
    requires { length graph.old ≡ graph_size }
    ensures { Decoded (decode block.now.words.now) (get_or block.now.words.now 1 0) graph.new }
{
    let nodes = nodes_of(block.words);
    for j in 0..nodes.gates {
        put_node(block.words, nodes, j, graph);
    }
}
