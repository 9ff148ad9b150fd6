// Never lines, appended as in crates/text_pieces: a pair for each input that a line fixes, by ascending input (SPECIFICATION 1.3,
// 7.11).
ghost use Rattle.std.specs.Prelude.{◌≤◌, get_or};
ghost use Rattle.netlist.specs.Limits.{max_inputs};
ghost use Rattle.words_layout.specs.Bounds.{written_room, max_word, line_room};
ghost use Rattle.text_pieces.specs.Pieces.{Appended, Short, pieces};
ghost use Rattle.op_write.specs.Lines.{fixed_text, never_text, never_line_text};

use text_pieces::each::put_each;
use text_pieces::{put_all, put_pair};
use words_layout::offsets::{INPUTS_AT, NAME_SIZE, NEVER_SIZE, inputs_of};
use words_layout::read::word_at;

// Appends the pair of input i, where the mask `fixed` has it.
fn put_fixed(
    text: &mut [u8],
    at: usize,
    words: &[u16],
    fixed: usize,
    ones: usize,
    i: usize,
) -> usize
    requires i_le_max_inputs { i ≤ max_inputs }
    requires short { Short (fixed_text words.now fixed ones i) at }
    ensures { Appended (fixed_text words.now fixed ones i) text.old at text.new result }
{
    if (fixed >> i) % 2 != 1 {
        return at;
    }
    let byte = 48 + (ones >> i) % 2;
    put_pair(text, at, words, INPUTS_AT + NAME_SIZE * i, byte as u8)
}

// Appends the pairs of the first n inputs, where the mask `fixed` has them.
fn put_pairs(
    text: &mut [u8],
    at: usize,
    words: &[u16],
    fixed: usize,
    ones: usize,
    n: usize,
) -> usize
    requires n_le_max_inputs { n ≤ max_inputs }
    requires short { Short (pieces (fixed_text words.now fixed ones) n) at }
    ensures { Appended (pieces (fixed_text words.now fixed ones) n)
        text.old at text.new result }
{
    put_each(
        text,
        at,
        n,
        move |text, end, i| put_fixed(text, end, words, fixed, ones, i),
    )
}

// Appends `(never`, pairs, and `)` with its LF: the line whose masks are at `from`.
fn put_never(text: &mut [u8], at: usize, words: &[u16], from: usize) -> usize
    requires words_bound { (get_or words.now 0 0 ≤ max_inputs) × (from ≤ written_room) }
    requires short { Short (never_text words.now from) at }
    ensures { Appended (never_text words.now from) text.old at text.new result }
{
    let fixed = word_at(words, from);
    let ones = word_at(words, from + 1);
    let opened = put_all(text, at, b"(never");
    let filled = put_pairs(text, opened, words, fixed, ones, inputs_of(words));
    put_all(text, filled, b")\n")
}

// Appends `count` never lines, the masks of which stand from `from` on.
#[tactic(auto, unfolding(crate::specs::Lines::never_line_text))]
pub fn put_nevers(text: &mut [u8], at: usize, words: &[u16], from: usize, count: usize) -> usize
    requires words_bound { (get_or words.now 0 0 ≤ max_inputs) × (from ≤ line_room) × (count ≤ max_word) }
    requires short { Short (pieces (never_line_text words.now from) count) at }
    ensures { Appended (pieces (never_line_text words.now from) count)
        text.old at text.new result }
{
    put_each(
        text,
        at,
        count,
        move |text, end, i| put_never(text, end, words, from + NEVER_SIZE * i),
    )
}
