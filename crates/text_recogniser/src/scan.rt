// The readers of words and names, on which the readers of a text's form stand (SPECIFICATION 1). Each takes the rest of
// a text as its slice and answers how many bytes are left behind what it read; its error is how many are left from the
// first byte on that is wrong there. A line is read by one reader after the other, each lent what the one before has
// left (`behind`). Nothing is written.
ghost use Rattle.std.specs.Prelude.{◌≡◌, ℕ, Bool, true, false, Ok};
ghost use Rattle.netlist.specs.Parse.{name_bytes, name_reader};
ghost use Rattle.text_recogniser.specs.Readers.{scan_of, last_ones, word_reader, first_byte};

use words_layout::bytes::{byte_at, is_letter, is_name_byte, is_name_start};
use words_layout::limits::MAX_NAME;

// The bytes that a name may have behind its first.
pub const BEHIND_FIRST: usize = MAX_NAME - 1;

// The last `left` bytes of a text, behind what was read of it; the whole text where it has no more.
pub fn behind(s: &[u8], left: usize) -> &[u8]
    ensures { result.now ≡ last_ones left s.now }
{
    &s[s.len().saturating_sub(left)..]
}

// Reads exactly these bytes.
pub fn word(s: &[u8], bytes: &[u8]) -> Result<usize, usize>
    ensures { result ≡ scan_of (word_reader bytes.now s.now) }
{
    for (i, &byte) in bytes.iter().enumerate() {
        if s.len() <= i || s[i] != byte {
            return Err(s.len() - i);
        }
    }
    Ok(s.len() - bytes.len())
}

// Reads at most `most` name bytes; gives the bytes left behind them.
pub fn name_bytes(s: &[u8], most: usize) -> usize
    ensures { Ok result ≡ scan_of (name_bytes most s.now) }
{
    let end = (0..most)
        .find(|&i| !is_name_byte(byte_at(s, i)))
        .unwrap_or(most);
    s.len() - end
}

// Reads a name of at least one byte and at most MAX_NAME, of which the first byte passes a test.
fn name<F: Fn(u8) -> bool>(s: &[u8], may_start: F) -> Result<usize, usize>
    ghost underscore: { Bool }
    requires callable { F.IsAlwaysCallable may_start }
    requires tells { (c : ℕ) (r : Bool) → F.post may_start c r → r ≡ first_byte underscore c }
    ensures { result ≡ scan_of (name_reader (first_byte underscore) s.now) }
{
    if !may_start(byte_at(s, 0)) {
        return Err(s.len());
    }
    Ok(name_bytes(&s[1..], BEHIND_FIRST))
}

// Reads the name of an input or a port, which begins with a letter.
#[tactic(auto, unfolding(crate::specs::Readers::first_byte))]
pub fn pin_name(s: &[u8]) -> Result<usize, usize>
    ensures { result ≡ scan_of (name_reader (first_byte false) s.now) }
{
    name(s, |c| is_letter(c))
}

// Reads a name that may also begin with `_`.
#[tactic(auto, unfolding(crate::specs::Readers::first_byte))]
pub fn any_name(s: &[u8]) -> Result<usize, usize>
    ensures { result ≡ scan_of (name_reader (first_byte true) s.now) }
{
    name(s, |c| is_name_start(c))
}
