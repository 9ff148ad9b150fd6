// The rules of a block's gates (SPECIFICATION 2.4): legal kinds, operand counts and operands; and whether the gates are
// in topological order, each reading only lower ones.
ghost use Rattle.std.specs.Prelude.{◌≡◌, ◌&&◌, ◌≤◌, ◌<◌, ◌+◌, ◌*◌, length};
ghost use Rattle.prelude.specs.Lists.{all, up_to};
ghost use Rattle.netlist.specs.Limits.{max_inputs, max_gates};
ghost use Rattle.netlist.specs.Kinds.{is_kind, arity_fits};
ghost use Rattle.netlist.specs.StoredBlock.{gate_size, operand_words};
ghost use Rattle.words_layout.specs.Bounds.{node_room, place_room};
ghost use Rattle.theory_encoding.specs.Rules.{node_rule, operand_rule, gate_rule};
ghost use Rattle.words_block.specs.GateSteps.{slot_rule, gate_rule_at, gates_rule, lower_rule};

use words_layout::nodes::{CONSTANT_0, CONSTANT_1};
use words_layout::offsets::GATE_SIZE;
use words_layout::read::word_in;

// The number of values that a word has.
const WORD_VALUES: usize = 65536;

// Is `kind` a kind of gate, and may it have `count` operands?
pub fn has_arity(kind: usize, count: usize) -> bool
    ensures { result ≡ is_kind kind && arity_fits kind count }
{
    match kind {
        0 => match count {
            1 => true,
            _ => false,
        },
        1 | 2 | 3 | 4 | 5 | 6 => match count {
            2..=4 => true,
            _ => false,
        },
        _ => false,
    }
}

// Does the word name an input or a gate? `nodes` is how many there are.
pub fn is_node(nodes: usize, word: usize) -> bool
    ensures { result ≡ node_rule nodes word }
{
    word < nodes
}

// Is the word an operand: an input, a gate or a constant?
pub fn is_operand(nodes: usize, word: usize) -> bool
    ensures { result ≡ operand_rule nodes word }
{
    if is_node(nodes, word) {
        return true;
    }
    word == CONSTANT_0 || word == CONSTANT_1
}

// Is the word an operand? One comparison tells: the constants are the two highest words, and with 2 added, modulo the
// number of words, they become 0 and 1, below every node.
fn is_operand_word(nodes: usize, word: u16) -> bool
    requires { nodes ≤ node_room }
    ensures { result ≡ operand_rule nodes word }
{
    (word as usize + 2) % WORD_VALUES < nodes + 2
}

// Do the four operand words of the gate at `at` fit: operands below the count, 0 from there on? Their tests are joined
// without branches.
fn slots_fit(words: &[u16], nodes: usize, at: usize, count: usize) -> bool
    requires { (at + operand_words < length words.now) × (nodes ≤ node_room) × (1 ≤ count) }
    ensures { result ≡ all (slot_rule words.now nodes at count) (up_to operand_words) }
{
    let first = is_operand_word(nodes, words[at + 1]);
    let b = words[at + 2];
    let c = words[at + 3];
    let d = words[at + 4];
    match count {
        1 => first & (b == 0) & (c == 0) & (d == 0),
        2 => first & is_operand_word(nodes, b) & (c == 0) & (d == 0),
        3 => first & is_operand_word(nodes, b) & is_operand_word(nodes, c) & (d == 0),
        _ => first
            & is_operand_word(nodes, b)
            & is_operand_word(nodes, c)
            & is_operand_word(nodes, d),
    }
}

// Does the gate whose first word is at `at` keep the rules?
fn fits(words: &[u16], nodes: usize, at: usize) -> bool
    requires { (at + operand_words < length words.now) × (nodes ≤ node_room) }
    ensures { result ≡ gate_rule words.now nodes at }
{
    let head = word_in(words, at);
    has_arity(head % 8, head / 8) && slots_fit(words, nodes, at, head / 8)
}

// Does gate j, of those from `at` on, keep the rules?
fn fits_at(words: &[u16], nodes: usize, at: usize, j: usize) -> bool
    requires at_le_place_room { (at ≤ place_room) × (j ≤ max_gates) × (nodes ≤ node_room) }
    requires operand_words_in_bounds { at + gate_size * j + operand_words < length words.now }
    ensures { result ≡ gate_rule_at words.now nodes at j }
{
    fits(words, nodes, at + GATE_SIZE * j)
}

// Do all m gates, from `at` on, keep the rules?
pub fn fit(words: &[u16], nodes: usize, at: usize, m: usize) -> bool
    requires at_le_place_room { (at ≤ place_room) × (m ≤ max_gates) × (nodes ≤ node_room) }
    requires m_in_bounds { at + gate_size * m ≤ length words.now }
    ensures { result ≡ gates_rule words.now nodes at m }
{
    (0..m).all(|j| fits_at(words, nodes, at, j))
}

// Is the block straight: does each gate keep its rule with only the inputs and the lower gates as nodes?
pub fn read_lower(words: &[u16], n: usize, at: usize, m: usize) -> bool
    requires n_le_max_inputs { (n ≤ max_inputs) × (at ≤ place_room) × (m ≤ max_gates) }
    requires m_in_bounds { at + gate_size * m ≤ length words.now }
    ensures { result ≡ lower_rule words.now n at m }
{
    (0..m).all(|j| fits_at(words, n + j, at, j))
}
