// What an operand that is no expression stands for, at the front of a text: a name, looked up by the index, or a
// constant.
ghost use Rattle.std.specs.Prelude.{◌≡◌, length};
ghost use Rattle.text_expressions.specs.Leaves.{name_here, leaf_here};

use crate::symbols::Symbols;
use text_names::index::find_indexed;
use text_names::pack::{name_length, pack_name};
use words_layout::bytes::byte_at;
use words_layout::nodes::{CONSTANT_0, CONSTANT_1};

// A name or a constant: the bytes left behind it, its node's word, and the bytes left from the first undeclared name
// on, where there is one.
#[derive(Drop)]
pub struct Leaf {
    pub left: usize,
    pub word: u16,
    pub unknown: Option<usize>,
}

// The words of the constants.
const ZERO: u16 = CONSTANT_0 as u16;

const ONE: u16 = CONSTANT_1 as u16;

// A name, looked up in the table through its index; one that is not there counts as constant 0.
pub fn name_here(s: &[u8], symbols: &Symbols, unknown: Option<usize>) -> Leaf
    ensures { result ≡ name_here s.now symbols.now.names.now symbols.now.words.now unknown }
{
    let length = name_length(s);
    let left = s.len() - length;
    match find_indexed(symbols.names, symbols.index, pack_name(&s[..length])) {
        Some(i) => Leaf {
            left,
            word: symbols.words[i],
            unknown,
        },
        None => Leaf {
            left,
            word: ZERO,
            unknown: unknown.or(Some(s.len())),
        },
    }
}

// What an operand stands for that is no expression: a name, `0` or `1`.
pub fn leaf_here(s: &[u8], symbols: &Symbols, unknown: Option<usize>) -> Leaf
    ensures { result ≡ leaf_here s.now symbols.now.names.now symbols.now.words.now unknown }
{
    let c = byte_at(s, 0);
    let left = s.len();
    if c == b'0' {
        return Leaf {
            left: left - 1,
            word: ZERO,
            unknown,
        };
    }
    if c == b'1' {
        return Leaf {
            left: left - 1,
            word: ONE,
            unknown,
        };
    }
    name_here(s, symbols, unknown)
}
