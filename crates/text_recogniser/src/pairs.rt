// The form of pairs, of never lines and of the bench's set lines (SPECIFICATION 1.3): one pair behind its space, and
// pairs up to their closing bracket.
ghost use Rattle.std.specs.Prelude.{◌≡◌};
ghost use Rattle.netlist.specs.Parse.{bit_reader, pairs_reader};
ghost use Rattle.text_recogniser.specs.Readers.{scan_of};
ghost use Rattle.text_recogniser.specs.Pairs.{pair_scan};

use crate::scan::{any_name, behind, word};
use words_layout::bytes::byte_at;

// Reads a pair's value, 0 or 1.
fn value(s: &[u8]) -> Result<usize, usize>
    ensures { result ≡ scan_of (bit_reader s.now) }
{
    match byte_at(s, 0) {
        b'0' | b'1' => Ok(s.len() - 1),
        _ => Err(s.len()),
    }
}

// Reads ` (NAME VALUE)`.
fn pair(s: &[u8]) -> Result<usize, usize>
    ensures { result ≡ scan_of (pair_scan s.now) }
{
    let s = behind(s, word(s, b" (")?);
    let s = behind(s, any_name(s)?);
    let s = behind(s, word(s, b" ")?);
    let s = behind(s, value(s)?);
    word(s, b")")
}

// Reads at most `most` pairs, of which `needed` are needed, and the closing bracket.
pub fn pairs(s: &[u8], most: usize, needed: usize) -> Result<usize, usize>
    ensures { result ≡ scan_of (pairs_reader most needed s.now) }
{
    let mut rest = s;
    for i in 0..most {
        match byte_at(rest, 0) {
            b')' if i < needed => return Err(rest.len()),
            b')' => return Ok(rest.len() - 1),
            _ => rest = behind(rest, pair(rest)?),
        }
    }
    word(rest, b")")
}
