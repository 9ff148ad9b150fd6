// The recogniser: does a text have the grammar's form, and where does it break (SPECIFICATION 1, and Read's refusal 2
// in 7.3)? It goes by recursive descent with one byte of look-ahead, and tells the first byte with which no legal text
// goes on. Its readers are of words and names (`scan`), keywords, pairs, expressions and lines; each takes the rest of
// the text as its slice and answers how many bytes are left. Nothing is written.
#![tactic(auto)]

ghost use Rattle.std.specs.Prelude.{◌≡◌};
ghost use Rattle.netlist.specs.declared.Refusal.TheVariants.{SyntaxError};
ghost use Rattle.words_refusals.specs.Tests.{test_at};
ghost use Rattle.text_recogniser.specs.Scan.{first_bad};

use crate::scan::behind;
use netlist::Refusal;
use words_layout::bytes::byte_at;

mod expressions;
pub mod keywords;
mod lines;
pub mod pairs;
pub mod scan;

// Refusal 2: the place of the first byte that no legal text has there. The loop lends each line's reader the rest of
// the text; `phase` says which lines may still come.
pub fn form(text: &[u8]) -> Result<(), Refusal>
    ensures { result ≡ test_at (first_bad text.now) SyntaxError }
{
    let mut phase = 0;
    let mut rest = text;
    // How much of the text a line takes is known once it was read, so that no range or iterator counts the lines.
    while !rest.is_empty() {
        match lines::line(rest, phase) {
            Ok(left) => {
                phase = lines::phase_of(byte_at(rest, 1));
                rest = behind(rest, left);
            }
            Err(left) => return Err(Refusal::SyntaxError(text.len() - left)),
        }
    }
    Ok(())
}
