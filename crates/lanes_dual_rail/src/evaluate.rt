// One gate under 64 settings at a time, in dual-rail words: the gate's pair from its row and the words of its operands.
// `lanes` has two words for each place: word 2 × place + v marks the lanes at which what stands there has value v. A
// gate reads four places; behind its last operand stands the constant that changes nothing.
ghost use Rattle.std.specs.Prelude.{◌≡◌, ◌<◌};
ghost use Rattle.graph_gates.specs.Places.{place_count};
ghost use Rattle.graph_gates.specs.Graph.{slots, kind_at, place_at};
ghost use Rattle.lanes_dual_rail.specs.Pairs.{parity_pair, swapped};
ghost use Rattle.lanes_dual_rail.specs.LaneWords.{pair_at, put_pair, operand_word, operand_words, some_word, every_word};
ghost use Rattle.lanes_dual_rail.specs.LaneWords.{rule_pair, parity_of, parity_at, gate_pair_in};

use crate::{LANE_WORDS, Pair};
use graph_gates::SLOTS;
use graph_gates::graph::Gate;

// Where the controlling and the forced value of a gate's row stand in its operation
// (crates/graph_gates/specs/Graph.antt).
const CONTROLLING: usize = 64;

const FORCED: usize = 128;

// The kind `not`.
const NOT: usize = 0;

// The kinds from this one on, `xor` and `xnor`, have no row of controlling and forced values.
const FIRST_PARITY: usize = 5;

// The pair at a place.
pub fn pair_at(lanes: &[u64; LANE_WORDS], place: usize) -> Pair
    requires { place < place_count }
    ensures { result ≡ pair_at lanes.now place }
{
    Pair {
        zeros: lanes[2 * place],
        ones: lanes[2 * place + 1],
    }
}

// Stores a pair at a place.
pub fn put_pair(lanes: &mut [u64; LANE_WORDS], place: usize, pair: Pair)
    requires { place < place_count }
    ensures { lanes.new ≡ put_pair lanes.old place pair }
{
    lanes[2 * place] = pair.zeros;
    lanes[2 * place + 1] = pair.ones;
}

// The lanes at which operand `i` of a gate has value `v`.
fn operand_word(gate: Gate, i: usize, v: usize, lanes: &[u64; LANE_WORDS]) -> u64
    requires { (i < slots) × (v < 2) }
    ensures { result ≡ operand_word gate.entry.graph.now gate.entry.number lanes.now v i }
{
    lanes[2 * gate.place(i) + v]
}

// The lanes at which each operand of a gate has value `v`.
fn operand_words(gate: Gate, v: usize, lanes: &[u64; LANE_WORDS]) -> [u64; SLOTS]
    requires { v < 2 }
    ensures { result ≡ operand_words gate.entry.graph.now gate.entry.number lanes.now v }
{
    let d = operand_word(gate, 3, v, lanes);
    let c = operand_word(gate, 2, v, lanes);
    let b = operand_word(gate, 1, v, lanes);
    let a = operand_word(gate, 0, v, lanes);
    [a, b, c, d]
}

// The lanes at which some operand of a gate has value `v`.
fn some_word(gate: Gate, v: usize, lanes: &[u64; LANE_WORDS]) -> u64
    requires { v < 2 }
    ensures { result ≡ some_word gate.entry.graph.now gate.entry.number lanes.now v }
{
    let [a, b, c, d] = operand_words(gate, v, lanes);
    a | (b | (c | d))
}

// The lanes at which every operand of a gate has value `v`.
fn every_word(gate: Gate, v: usize, lanes: &[u64; LANE_WORDS]) -> u64
    requires { v < 2 }
    ensures { result ≡ every_word gate.entry.graph.now gate.entry.number lanes.now v }
{
    let [a, b, c, d] = operand_words(gate, v, lanes);
    a & (b & (c & d))
}

// The pair of a gate by its row: `forced` where some operand is `controlling`, the other value where every operand is
// the other.
fn rule_pair(gate: Gate, controlling: usize, forced: usize, lanes: &[u64; LANE_WORDS]) -> Pair
    requires { controlling < 2 }
    ensures { result ≡ rule_pair gate.entry.graph.now gate.entry.number lanes.now controlling forced }
{
    let some = some_word(gate, controlling, lanes);
    let every = every_word(gate, 1 - controlling, lanes);
    if forced == 0 {
        return Pair {
            zeros: some,
            ones: every,
        };
    }
    Pair {
        zeros: every,
        ones: some,
    }
}

// The parity of two pairs: undefined where one of them is.
fn parity_of_two(p: Pair, q: Pair) -> Pair
    ensures { result ≡ parity_pair p q }
{
    Pair {
        zeros: (p.zeros & q.zeros) | (p.ones & q.ones),
        ones: (p.zeros & q.ones) | (p.ones & q.zeros),
    }
}

// The pair of operand `i` of a gate.
fn operand_pair(gate: Gate, i: usize, lanes: &[u64; LANE_WORDS]) -> Pair
    requires { i < slots }
    ensures { result ≡ pair_at lanes.now (place_at gate.entry.graph.now gate.entry.number i) }
{
    pair_at(lanes, gate.place(i))
}

// The pair of a gate without a row: the parity of its operands, inverted where `forced` is 1.
fn parity_pair(gate: Gate, forced: usize, lanes: &[u64; LANE_WORDS]) -> Pair
    ensures { result ≡ parity_at gate.entry.graph.now gate.entry.number lanes.now forced }
{
    let a = operand_pair(gate, 0, lanes);
    let b = operand_pair(gate, 1, lanes);
    let c = operand_pair(gate, 2, lanes);
    let d = operand_pair(gate, 3, lanes);
    let pair = parity_of_two(a, parity_of_two(b, parity_of_two(c, d)));
    if forced == 0 {
        return pair;
    }
    Pair {
        zeros: pair.ones,
        ones: pair.zeros,
    }
}

// The pair of a `not`: behind its one operand stands constant 1, which is read once.
fn not_pair(gate: Gate, lanes: &[u64; LANE_WORDS]) -> Pair
    requires { kind_at gate.graph.now gate.number ≡ 0 }
    ensures { result ≡ gate_pair_in gate.entry.graph.now gate.entry.number lanes.now }
{
    let pair = operand_pair(gate, 0, lanes);
    let one = pair_at(lanes, 1);
    Pair {
        zeros: pair.ones & one.ones,
        ones: pair.zeros | one.zeros,
    }
}

// The pair of a gate, by its operation. Each row has a call of its own, where the words to be read are known and in
// which order they stand.
pub fn gate_pair(gate: Gate, lanes: &[u64; LANE_WORDS]) -> Pair
    ensures { result ≡ gate_pair_in gate.entry.graph.now gate.entry.number lanes.now }
{
    let operation = gate.operation();
    if operation % 8 == NOT {
        return not_pair(gate, lanes);
    }
    if FIRST_PARITY <= operation % 8 {
        return parity_pair(gate, operation / FORCED, lanes);
    }
    let forced = operation / FORCED;
    if operation / CONTROLLING % 2 == 0 {
        if forced == 0 {
            return rule_pair(gate, 0, 0, lanes);
        }
        return rule_pair(gate, 0, 1, lanes);
    }
    if forced == 0 {
        return rule_pair(gate, 1, 0, lanes);
    }
    rule_pair(gate, 1, 1, lanes)
}
