// The form of expressions, by recursive descent (SPECIFICATION 1.3): the readers of an expression, of an operand and of
// its operands call each other; depth left and bytes left fall. Each takes the rest of the text as its slice and
// answers how many bytes are left.
ghost use Rattle.std.specs.Prelude.{◌≡◌};
ghost use Rattle.netlist.specs.Kinds.{keyword};
ghost use Rattle.netlist.specs.Syntax.{Term, apply};
ghost use Rattle.netlist.specs.Parse.{term_reader, terms_reader, expr_reader};
ghost use Rattle.text_recogniser.specs.Readers.{scan_of, word_reader};

use crate::keywords::kind_here;
use crate::scan::{any_name, behind, word};
use words_layout::bytes::{byte_at, is_name_start};
use words_layout::kinds::{fewest_operands, most_operands, signature_of};
use words_layout::trim::trimmed_length;

// Reads the keyword of a kind.
fn kind_word(s: &[u8], kind: usize) -> Result<usize, usize>
    ensures { result ≡ scan_of (word_reader (keyword kind) s.now) }
{
    let bytes = signature_of(kind).keyword;
    word(s, &bytes[..trimmed_length(&bytes)])
}

// Reads an expression behind its opening bracket, whose operands have `depth` levels left.
#[cycle(expression_operand_operands)]
pub fn expression(s: &[u8], depth: usize) -> Result<usize, usize>
    ensures { result ≡ scan_of (expr_reader {A = Term} (term_reader depth) apply s.now) }
{
    let kind = kind_here(s);
    let s = behind(s, kind_word(s, kind)?);
    operands(s, depth, most_operands(kind), fewest_operands(kind))
}

// Reads at most `most` operands, of which `needed` are needed, and the closing bracket: an operand a turn.
#[cycle(expression_operand_operands)]
fn operands(s: &[u8], depth: usize, most: usize, needed: usize) -> Result<usize, usize>
    ensures { result ≡ scan_of (terms_reader (term_reader depth) most needed s.now) }
{
    let mut rest = s;
    for i in 0..most {
        match byte_at(rest, 0) {
            b')' if i < needed => return Err(rest.len()),
            b')' => return Ok(rest.len() - 1),
            b' ' => rest = behind(rest, operand(&rest[1..], depth)?),
            _ => return Err(rest.len()),
        }
    }
    word(rest, b")")
}

// Reads an operand, with `depth` levels of expressions left.
#[cycle(expression_operand_operands)]
fn operand(s: &[u8], depth: usize) -> Result<usize, usize>
    ensures { result ≡ scan_of (term_reader depth s.now) }
{
    match byte_at(s, 0) {
        c if is_name_start(c) => any_name(s),
        b'0' | b'1' => Ok(s.len() - 1),
        b'(' if depth > 0 => expression(&s[1..], depth - 1),
        _ => Err(s.len()),
    }
}
