// How many pairs stand at a place of a text, and tables of their names' places, their names as numbers, and their
// values.
ghost use Rattle.std.specs.Prelude.{◌≡◌, List, ◌≤◌, length, drop};
ghost use Rattle.prelude.specs.Lists.{tab, placed};
ghost use Rattle.netlist.specs.Syntax.{Pair};
ghost use Rattle.text_lines.specs.Lines.{line_opens};
ghost use Rattle.text_names.specs.Packed.{name_from};
ghost use Rattle.text_pairs.specs.PairBytes.{code_front, code_at};
ghost use Rattle.text_pairs.specs.Tables.{PairsAt, PairRoom, PairsTabled};

use crate::told::fill_at_names;
use text_lines::opens;
use text_names::pack::{fill_at_places, fill_names, name_length, rest_from};
use words_layout::bytes::byte_at;

// How many pairs stand from a place on to the line's end: each has one opening bracket.
pub fn pair_count(text: &[u8], at: usize) -> usize
    requires { at ≤ length text.now }
    ensures { result ≡ line_opens (drop at text.now) }
{
    opens(&text[at..])
}

// The length of the name at a place.
#[tactic(auto, unfolding(text_names::specs::Packed::name_from))]
pub fn name_size(text: &[u8], at: usize) -> usize
    ensures { result ≡ length (name_from text.now at) }
{
    name_length(rest_from(text, at))
}

// The value behind the name at the front of `s`: 0 or 1.
fn code_front(s: &[u8]) -> u8
    ensures { result ≡ code_front s.now }
{
    if byte_at(s, name_length(s) + 1) == b'1' {
        1
    } else {
        0
    }
}

// The value of the pair whose name stands at a place.
#[tactic(auto, unfolding(crate::specs::PairBytes::code_at))]
pub fn code_at(text: &[u8], at: usize) -> u8
    ensures { result ≡ code_at text.now at }
{
    code_front(rest_from(text, at))
}

// The tables of the pairs at a place of a text, the first pair's space; how many there are.
pub fn fill_pairs(
    text: &[u8],
    at: usize,
    names: &mut [u64],
    places: &mut [usize],
    codes: &mut [u8],
) -> usize
    requires { PairRoom text.now at names.old places.old codes.old }
    ensures { (ps : List Pair) → PairsAt at ps text.now
        → PairsTabled ps at result names.new places.new codes.new }
{
    let count = pair_count(text, at);
    fill_at_names(text, at, count, |place| place, places);
    fill_names(text, &places[..count], names);
    fill_at_places(&places[..count], |place| code_at(text, place), codes);
    count
}
