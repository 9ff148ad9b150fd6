// Two tests of a stored block: are the words malformed (refusal 6), and is the block straight, which is in topological
// order by gate number (refusal 10)? Each part of a block has its rules in a module: head, names, never lines, gates,
// outputs. Every operation that takes a block calls `check_words` first. No function reads past the end of the words.
#![tactic(auto)]

ghost use Rattle.std.specs.Prelude.{◌≡◌, not, IfOk, ◌≤◌, ◌+◌, ◌*◌, length};
ghost use Rattle.theory_encoding.specs.Rules.{intact};
ghost use Rattle.netlist.specs.declared.Refusal.TheVariants.{MalformedBlock, NotStraight};
ghost use Rattle.words_refusals.specs.Tests.{test_of, test_in};
ghost use Rattle.netlist.specs.Limits.{max_inputs, max_nevers, max_gates, max_outputs};
ghost use Rattle.netlist.specs.StoredBlock.{output_size, outputs_at, is_malformed, decode};
ghost use Rattle.netlist.specs.Rendering.{is_straight};
ghost use Rattle.words_block.specs.Steps.{front_rule, parts_rule};

use names::Names;
use netlist::Refusal;
use words_layout::block::Block;
use words_layout::offsets;
use words_refusals::refuse_if;

pub mod gates;
mod header;
mod names;
mod nevers;
mod outputs;

// Do the names and the never lines keep their rules, behind a header of n inputs and l lines?
fn front_fits(words: &[u16], n: usize, l: usize) -> bool
    requires n_le_max_inputs { n ≤ max_inputs }
    requires l_le_max_nevers { l ≤ max_nevers }
    ensures { result ≡ front_rule words.now n l }
{
    let names = Names {
        words,
        at: offsets::INPUTS_AT,
        size: offsets::NAME_SIZE,
    };
    if !names.fit(n) {
        return false;
    }
    nevers::fit(words, n, offsets::nevers_at(n), l)
}

// Do all parts keep their rules, behind a header of n inputs, l never lines, m gates and k outputs?
fn parts_fit(words: &[u16], n: usize, l: usize, m: usize, k: usize) -> bool
    requires n_le_max_inputs { n ≤ max_inputs }
    requires l_le_max_nevers { l ≤ max_nevers }
    requires m_le_max_gates { m ≤ max_gates }
    requires k_le_max_outputs { k ≤ max_outputs }
    requires words_len { length words.now ≡ outputs_at n l m + output_size * k }
    ensures { result ≡ parts_rule words.now n l m k }
{
    let outputs_at = offsets::outputs_behind(n, l, m);
    if !front_fits(words, n, l) {
        return false;
    }
    if !crate::gates::fit(words, n + m, offsets::gates_behind(n, l), m) {
        return false;
    }
    let ports = Names {
        words,
        at: outputs_at,
        size: offsets::OUTPUT_SIZE,
    };
    if !ports.fit(k) {
        return false;
    }
    outputs::fit(words, n + m, outputs_at, k)
}

// Do the words keep every rule of the stored block?
fn is_intact(words: &[u16]) -> bool
    ensures { result ≡ intact words.now }
{
    if !header::fits(words) {
        return false;
    }
    let n = offsets::inputs_of(words);
    let m = offsets::gates_of(words);
    let k = offsets::outputs_of(words);
    let l = offsets::nevers_of(words);
    parts_fit(words, n, l, m, k)
}

// Refusal 6, of a slice of any length and content: is it a stored block? Hands on the block.
pub fn check_words(words: &[u16]) -> Result<Block<'_>, Refusal>
    ensures tested { test_in result ≡ test_of (is_malformed words.now) MalformedBlock }
    ensures block { IfOk result (λ block. block.words.now ≡ words.now) }
{
    if !is_intact(words) {
        return Err(Refusal::MalformedBlock);
    }
    Ok(Block { words })
}

// Refusal 10: do all gates of a block read only inputs, constants and lower gates?
pub fn check_straight(block: &Block) -> Result<(), Refusal>
    ensures { result ≡ test_of (not (is_straight (decode block.now.words.now))) NotStraight }
{
    let n = offsets::inputs_of(block.words);
    let m = offsets::gates_of(block.words);
    let at = offsets::gates_at(block.words);
    refuse_if(
        !crate::gates::read_lower(block.words, n, at, m),
        Refusal::NotStraight,
    )
}
