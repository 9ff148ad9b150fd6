// The form of the bench's set lines: `(set`, pairs as never lines have them, and LF.
ghost use Rattle.std.specs.Prelude.{◌≡◌};
ghost use Rattle.netlist.specs.declared.Refusal.TheVariants.{SyntaxError};
ghost use Rattle.words_refusals.specs.Tests.{test_at};
ghost use Rattle.netlist.specs.SetLine.{set_line_reader};
ghost use Rattle.text_recogniser.specs.Readers.{scan_of};
ghost use Rattle.bench_set_line.specs.Line.{first_bad_in_set_line};

use netlist::Refusal;
use text_recogniser::pairs::pairs;
use text_recogniser::scan::{behind, word};

// Reads `(set`, pairs and LF, with nothing behind it.
fn set_line_scan(line: &[u8], most: usize) -> Result<usize, usize>
    ensures { result ≡ scan_of (set_line_reader most line.now) }
{
    let s = behind(line, word(line, b"(set")?);
    let s = behind(s, pairs(s, most, 0)?);
    let left = word(s, b"\n")?;
    if left == 0 { Ok(0) } else { Err(left) }
}

// Refusal 2 of a set line: is it in form, with at most `most` pairs?
pub fn test_set_line(line: &[u8], most: usize) -> Result<(), Refusal>
    ensures { result ≡ test_at (first_bad_in_set_line most line.now) SyntaxError }
{
    match set_line_scan(line, most) {
        Ok(_) => Ok(()),
        Err(left) => Err(Refusal::SyntaxError(line.len() - left)),
    }
}
