// How many lines and gates a text has, and whether that is within the limits (Read's refusal 3).
ghost use Rattle.std.specs.Prelude.{◌≡◌, List, ℕ, ◌≤◌, length, drop};
ghost use Rattle.netlist.specs.Limits.{max_text};
ghost use Rattle.netlist.specs.declared.Refusal.TheVariants.{OverLimit};
ghost use Rattle.words_refusals.specs.Tests.{test_of};
ghost use Rattle.netlist.specs.Syntax.{Tree};
ghost use Rattle.netlist.specs.Reading.{gate_lines_at, is_over_limit};
ghost use Rattle.text_lines.specs.Trees.{TextOf};
ghost use Rattle.text_lines.specs.Counting.{times_behind, counts_of, tree_counts, is_over};

use crate::{count, one_if};
use netlist::Refusal;
use words_layout::limits::{MAX_GATES, MAX_INPUTS, MAX_NEVERS, MAX_OUTPUTS};
use words_refusals::refuse_if;

// What a text has: input lines, never lines, lines of named gates, output lines, and gates, inner ones counted.
#[derive(Clone, Copy)]
pub struct Counts {
    pub inputs: usize,
    pub nevers: usize,
    pub named: usize,
    pub outputs: usize,
    pub gates: usize,
}

// How often `b` stands right behind `a` in `s`. The count has 16 bits, so that a processor adds many at a time.
fn count_behind(s: &[u8], a: u8, b: u8) -> usize
    requires { length s.now ≤ max_text }
    ensures { result ≡ times_behind a b s.now }
{
    let mut n: u16 = 0;
    for i in 1..s.len() {
        n += (one_if(s[i - 1], a) * one_if(s[i], b)) as u16;
    }
    n as usize
}

// Counts by bytes: each line has one bracket of its own, and each gate one more. `g` stands behind those of named gates
// alone, as no kind begins with it.
fn count_bytes(rest: &[u8], inputs: usize, nevers: usize) -> Counts
    requires { length rest.now ≤ max_text }
    ensures { result ≡ counts_of inputs nevers rest.now }
{
    let lines = count(rest, b'\n');
    let named = count_behind(rest, b'(', b'g');
    Counts {
        inputs,
        nevers,
        named,
        outputs: lines.saturating_sub(named),
        gates: count(rest, b'(').saturating_sub(lines),
    }
}

// The counts of a text whose gate lines begin with `rest`, behind so many inputs and never lines.
pub fn tally(rest: &[u8], inputs: usize, nevers: usize) -> Counts
    requires { length rest.now ≤ max_text }
    ensures { (t : Tree) (text : List ℕ) → TextOf t text → inputs ≡ length t.inputs
        → nevers ≡ length t.nevers
        → rest.now ≡ drop (gate_lines_at t) text → result ≡ tree_counts t }
{
    count_bytes(rest, inputs, nevers)
}

// Refusal 3, from the counts.
fn is_over(c: Counts) -> bool
    ensures { result ≡ is_over c }
{
    let inputs = c.inputs;
    let nevers = c.nevers;
    let gates = c.gates;
    let outputs = c.outputs;
    if MAX_INPUTS < inputs {
        return true;
    }
    if MAX_NEVERS < nevers {
        return true;
    }
    if MAX_GATES < gates {
        return true;
    }
    MAX_OUTPUTS < outputs
}

// Refusal 3: more inputs, never lines, gates (inner ones counted) or outputs than the limits allow.
pub fn limits(c: Counts) -> Result<(), Refusal>
    ensures { (t : Tree) → c ≡ tree_counts t → result ≡ test_of (is_over_limit t) OverLimit }
{
    refuse_if(is_over(c), Refusal::OverLimit)
}
