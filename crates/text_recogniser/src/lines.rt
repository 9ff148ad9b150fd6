// The readers of lines. Each gets the rest of the text behind a line's opening bracket.
ghost use Rattle.std.specs.Prelude.{◌≡◌};
ghost use Rattle.text_recogniser.specs.Readers.{scan_of};
ghost use Rattle.text_recogniser.specs.Scan.{input_reader, never_reader, gate_reader};
ghost use Rattle.text_recogniser.specs.Scan.{output_reader};
ghost use Rattle.text_recogniser.specs.Scan.{line_reader, phase_of};

use crate::expressions::expression;
use crate::pairs::pairs;
use crate::scan::{any_name, behind, pin_name, word};
use words_layout::bytes::byte_at;
use words_layout::limits::MAX_DEPTH;

// The levels of expressions that may stand inside the expression of a line.
const INNER_DEPTH: usize = MAX_DEPTH - 1;

// Reads `in NAME)` and its LF.
fn input_line(s: &[u8]) -> Result<usize, usize>
    ensures { result ≡ scan_of (input_reader s.now) }
{
    let s = behind(s, word(s, b"in ")?);
    let s = behind(s, pin_name(s)?);
    word(s, b")\n")
}

// Reads `never`, at least one pair, and `)` with its LF. No more pairs stand there than bytes are left.
fn never_line(s: &[u8]) -> Result<usize, usize>
    ensures { result ≡ scan_of (never_reader s.now) }
{
    let s = behind(s, word(s, b"never")?);
    let s = behind(s, pairs(s, s.len(), 1)?);
    word(s, b"\n")
}

// Reads `gate NAME EXPR)` and its LF.
fn gate_line(s: &[u8]) -> Result<usize, usize>
    ensures { result ≡ scan_of (gate_reader s.now) }
{
    let s = behind(s, word(s, b"gate ")?);
    let s = behind(s, any_name(s)?);
    let s = behind(s, word(s, b" (")?);
    let s = behind(s, expression(s, INNER_DEPTH)?);
    word(s, b")\n")
}

// Reads `out PORT NAME)` and its LF.
fn output_line(s: &[u8]) -> Result<usize, usize>
    ensures { result ≡ scan_of (output_reader s.now) }
{
    let s = behind(s, word(s, b"out ")?);
    let s = behind(s, pin_name(s)?);
    let s = behind(s, word(s, b" ")?);
    let s = behind(s, any_name(s)?);
    word(s, b")\n")
}

// Which lines may come behind a line with this letter: 0 all, 1 no inputs, 2 gates and outputs, 3 outputs. A phase is
// a number, since the lines that may come go by its order (`phase <= 1`), as in the definition of `line_reader`.
pub fn phase_of(letter: u8) -> usize
    ensures { result ≡ phase_of letter }
{
    match letter {
        b'i' => 0,
        b'n' => 1,
        b'g' => 2,
        _ => 3,
    }
}

// Reads one line, of those that may come in this phase.
pub fn line(s: &[u8], phase: usize) -> Result<usize, usize>
    ensures { result ≡ scan_of (line_reader phase s.now) }
{
    if byte_at(s, 0) != b'(' {
        return Err(s.len());
    }
    let rest = &s[1..];
    match byte_at(rest, 0) {
        b'i' if phase == 0 => input_line(rest),
        b'n' if phase <= 1 => never_line(rest),
        b'g' if phase <= 2 => gate_line(rest),
        _ => output_line(rest),
    }
}
