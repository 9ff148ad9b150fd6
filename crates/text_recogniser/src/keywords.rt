// The keywords of kinds at the front of a text: which kind's word stands there, by the bytes that tell the keywords
// apart, and how long it is. Where no keyword stands, it is a kind whose word begins as far as any does.
ghost use Rattle.std.specs.Prelude.{◌≡◌};
ghost use Rattle.text_recogniser.specs.Keywords.{kind_behind_x, kind_here, word_length};

use words_layout::bytes::byte_at;
use words_layout::kinds::{NOT, ROWS, XOR, signature_of};
use words_layout::trim::trimmed_length;

// The bytes that tell the keywords apart, from the table of kinds.
const AND_A: u8 = ROWS[0].keyword[0];

const OR_O: u8 = ROWS[1].keyword[0];

const NAND_A: u8 = ROWS[2].keyword[1];

const NOT_T: u8 = NOT.keyword[2];

const XOR_X: u8 = XOR.keyword[0];

const XOR_O: u8 = XOR.keyword[1];

// The kind of a word of `x` and this byte.
fn kind_behind_x(c: u8) -> usize
    ensures { result ≡ kind_behind_x c }
{
    if c == XOR_O { 5 } else { 6 }
}

// The kind whose word stands here. Kinds are numbers, as the stored format and netlist's definitions have them.
pub fn kind_here(s: &[u8]) -> usize
    ensures { result ≡ kind_here s.now }
{
    match byte_at(s, 0) {
        AND_A => 1,
        OR_O => 2,
        XOR_X => kind_behind_x(byte_at(s, 1)),
        _ if byte_at(s, 1) == NAND_A => 3,
        _ if byte_at(s, 2) == NOT_T => 0,
        _ => 4,
    }
}

// The bytes of a kind's word.
pub fn word_length(kind: usize) -> usize
    ensures { result ≡ word_length kind }
{
    trimmed_length(&signature_of(kind).keyword)
}
