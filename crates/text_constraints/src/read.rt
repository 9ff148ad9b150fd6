// What the never lines of a text tell. Each is read once, from the rest of the text.
ghost use Rattle.std.specs.Prelude.{◌≡◌};
ghost use Rattle.netlist.specs.Syntax.{Tree};
ghost use Rattle.text_lines.specs.Trees.{TextOf};
ghost use Rattle.text_constraints.specs.Places.{never_lines, Told};
ghost use Rattle.text_constraints.specs.Ready.{LineReady, LineRead, LinesReady, LinesRead, NeversRoom};

use crate::{LineTold, NeverLines, NeverTold};
use text_lines::{line_of, next_line};
use text_names::search::MAX_PAIRS;
use text_pairs::numbers::{fill_numbers, fill_values, find_outside, find_repeat};
use text_symbols::table::input_names;
use words_layout::limits::{MAX_INPUTS, MAX_NEVERS};
use words_layout::offsets::NEVER_SIZE;
use words_layout::value_masks::masks_of;

// The bytes of `(never`, behind which the pairs stand.
const PAIRS_AT: usize = 6;

// The words of the most lines that a block may have.
pub const NEVER_WORDS: usize = NEVER_SIZE * MAX_NEVERS;

// Reads the never line at the front of the rest of a text; the line starts at place `at` of the text. Each of its pairs
// has one bracket, as a gate has.
fn read_line(
    s: &[u8],
    at: usize,
    inputs: &[u64; MAX_INPUTS],
    n: usize,
    names: &mut [u64; MAX_PAIRS],
) -> LineTold
    requires { LineReady s.now at inputs.now n names.old }
    ensures { LineRead s.now at inputs.now n names.new result }
{
    let line = line_of(s);
    let count = line.gates;
    fill_numbers(s, PAIRS_AT, count, names);
    let given = &names[..count];
    let known = &inputs[..n];
    let repeat = find_repeat(s, PAIRS_AT, at, given);
    let outside = find_outside(s, PAIRS_AT, at, given, known);
    let mut setting = [0u8; MAX_INPUTS];
    fill_values(s, PAIRS_AT, given, known, &mut setting);
    let masks = masks_of(&setting[..n]);
    // Of three results, so that no `From` makes it.
    LineTold {
        repeat,
        outside,
        defined: masks.defined,
        ones: masks.ones,
    }
}

// Reads so many never lines from a place on: refusal 4, where a name may stand in two lines, refusal 5, and their words
// into the beginning of `masks`.
fn read_lines(
    text: &[u8],
    from: usize,
    count: usize,
    inputs: &[u64; MAX_INPUTS],
    n: usize,
    names: &mut [u64; MAX_PAIRS],
    masks: &mut [u16; NEVER_WORDS],
) -> NeverTold
    requires { LinesReady text.now from count inputs.now n names.old masks.old }
    ensures { LinesRead text.now from count inputs.now n masks.old
        masks.new result }
{
    let mut repeat = Ok(());
    let mut outside = Ok(());
    let mut at = from;
    for i in 0..count {
        let line = read_line(&text[at..], at, inputs, n, names);
        repeat = repeat.and(line.repeat);
        outside = outside.and(line.outside);
        masks[2 * i] = line.defined;
        masks[2 * i + 1] = line.ones;
        at = next_line(text, at);
    }
    NeverTold { repeat, outside }
}

// Reads all never lines: refusals 4 and 5, and their words into the beginning of `masks`.
pub fn read_nevers(text: &[u8], lines: NeverLines, masks: &mut [u16; NEVER_WORDS]) -> NeverTold
    requires { NeversRoom text.now lines masks.old }
    ensures { (t : Tree) → TextOf t text.now → lines ≡ never_lines t
        → Told t masks.old masks.new result }
{
    let n = lines.inputs;
    let count = lines.count;
    if count == 0 {
        return NeverTold {
            repeat: Ok(()),
            outside: Ok(()),
        };
    }
    let mut inputs = [0u64; MAX_INPUTS];
    input_names(text, n, &mut inputs);
    let mut names = [0u64; MAX_PAIRS];
    read_lines(text, lines.at, count, &inputs, n, &mut names, masks)
}
