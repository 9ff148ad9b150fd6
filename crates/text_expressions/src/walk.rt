// The walk over expressions, by recursive descent: the readers of an operand and of an expression call each other; the
// bytes left fall. A gate is written when its bracket closes (postorder), so that it is numbered behind its inner
// gates.
ghost use Rattle.std.specs.Prelude.{◌≡◌, ◌∷◌, ◌+◌, ◌*◌, ◌≤◌, length};
ghost use Rattle.std.proofs.lemmas.List.Edits.{sets};
ghost use Rattle.netlist.specs.StoredBlock.{gate_size};
ghost use Rattle.text_expressions.specs.Walk.{TermHere, TermRead};

use crate::leaves::leaf_here;
use crate::symbols::Symbols;
use text_recogniser::keywords::{kind_here, word_length};
use words_layout::bytes::byte_at;
use words_layout::limits::MAX_GATES;
use words_layout::offsets::{GATE_SIZE, OPERAND_WORDS};

// An operand: the bytes left behind it, its node's word, the gates that have closed, and the bytes left from the first
// undeclared name on, where there is one. The word stands between the last two: side by side, they are read back in
// one piece, which waits for both stores.
#[derive(Drop)]
pub struct Found {
    pub left: usize,
    pub gates: usize,
    pub word: u16,
    pub unknown: Option<usize>,
}

// Writes a gate's five words.
fn put_gate(gates: &mut [u16], number: usize, kind: usize, count: usize, slots: &[u16])
    requires gate_size_in_bounds { gate_size * number + gate_size ≤ length gates.old }
    requires kind_bound { (kind ≤ 6) × (count ≤ 4) }
    requires slots_len { length slots.now ≡ 4 }
    ensures { gates.new ≡ sets gates.old (gate_size * number)
        ((kind + 8 * count) ∷ slots.now) }
{
    let at = GATE_SIZE * number;
    gates[at] = (kind + 8 * count) as u16;
    gates[at + 1] = slots[0];
    gates[at + 2] = slots[1];
    gates[at + 3] = slots[2];
    gates[at + 4] = slots[3];
}

// Reads an operand of a text with n inputs, behind `first` gates, and writes the gates in it.
#[cycle(expression_operand)]
pub fn operand(
    s: &[u8],
    n: usize,
    first: usize,
    unknown: Option<usize>,
    symbols: &Symbols,
    gates: &mut [u16; GATE_SIZE * MAX_GATES],
) -> Found
    requires term_here { TermHere s.now n symbols.now.names.now symbols.now.words.now first gates.old }
    ensures { TermRead s.now n symbols.now.names.now symbols.now.words.now first unknown
        gates.old gates.new result }
{
    if byte_at(s, 0) == b'(' {
        return expression(&s[1..], n, first, unknown, symbols, gates);
    }
    let leaf = leaf_here(s, symbols, unknown);
    // A leaf closes no gate, so that the number of those before it stands beside what it tells.
    Found {
        left: leaf.left,
        word: leaf.word,
        gates: first,
        unknown: leaf.unknown,
    }
}

// Reads an expression behind its opening bracket: an operand a turn, and then the gate itself.
#[cycle(expression_operand)]
pub fn expression(
    s: &[u8],
    n: usize,
    first: usize,
    unknown: Option<usize>,
    symbols: &Symbols,
    gates: &mut [u16; GATE_SIZE * MAX_GATES],
) -> Found
    requires term_here { TermHere (40 ∷ s.now) n symbols.now.names.now symbols.now.words.now first gates.old }
    ensures { TermRead (40 ∷ s.now) n symbols.now.names.now symbols.now.words.now first unknown
        gates.old gates.new result }
{
    let kind = kind_here(s);
    let mut at = word_length(kind);
    let mut slots = [0u16; OPERAND_WORDS];
    let mut count = 0;
    let mut closed = first;
    let mut missing = unknown;
    // How many operands there are is known only at the bracket, so a range would be no plainer.
    while byte_at(s, at) != b')' {
        let one = operand(&s[at + 1..], n, closed, missing, symbols, gates);
        slots[count] = one.word;
        at = s.len() - one.left;
        closed = one.gates;
        missing = one.unknown;
        count += 1;
    }
    put_gate(gates, closed, kind, count, &slots);
    Found {
        left: s.len() - at - 1,
        word: (n + closed) as u16,
        gates: closed + 1,
        unknown: missing,
    }
}
