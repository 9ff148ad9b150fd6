// The program `unloop` (SPECIFICATION 8): reads a text on standard input and writes the rendered text, or the refusal's
// line, which `convert` makes. One byte more than the longest text is read, so that a longer one is refused.
#![tactic(auto)]

use words_layout::limits::{MAX_TEXT, WRITTEN_BYTES};

mod convert;

fn main() {
    let mut text = [0u8; MAX_TEXT + 1];
    let n = io::read_full(0, &mut text);
    let mut out = [0u8; WRITTEN_BYTES];
    let count = crate::convert::convert(&text[..n], &mut out);
    io::write_all(1, &out[..count]);
}
