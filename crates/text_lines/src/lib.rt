// The lines of a text: where each starts, and what its bytes say of it; and in `counts`, how many lines and gates a
// text has, and the limits (refusal 3).
#![tactic(auto)]

ghost use Rattle.std.specs.Prelude.{◌≡◌, false, cond, ◌+◌, ◌-◌, ◌≤◌, eqb, length, drop};
ghost use Rattle.netlist.specs.Limits.{max_text};
ghost use Rattle.text_lines.specs.Lines.{times, NoLf, length_with_lf, line_opens, name_offset, LineOf};

use words_layout::bytes::byte_at;

pub mod counts;

// A line: its bytes with its LF, where in it the name stands that it declares, and its gates.
#[derive(Drop)]
pub struct Line {
    pub length: usize,
    pub name: usize,
    pub gates: usize,
}

// 1 where the bytes are the same, else 0.
pub fn one_if(a: u8, b: u8) -> usize
    ensures { result ≡ cond (eqb a b) 1 0 }
{
    if a == b { 1 } else { 0 }
}

// How often `b` stands in `s`. The count has 16 bits, so that a processor adds many at a time.
pub fn count(s: &[u8], b: u8) -> usize
    requires { length s.now ≤ max_text }
    ensures { result ≡ times b s.now }
{
    let mut n: u16 = 0;
    for x in s {
        n += one_if(*x, b) as u16;
    }
    n as usize
}

// The bytes that are looked at together, so that a processor compares many at a time: fewer than most lines have.
const PART: usize = 16;

// Does an LF stand in the part from `at` on? Every byte of the part is looked at, so that no byte ends the loop early.
// Not op_line's, which stands on netlist alone and looks at longer parts: its texts are passed whole, and not by lines.
fn has_lf(s: &[u8], at: usize) -> bool
    requires { at + 16 ≤ length s.now }
    ensures { result ≡ false → NoLf s.now at 16 }
{
    let mut found = false;
    for i in 0..PART {
        found = found | (s[at + i] == b'\n');
    }
    found
}

// The bytes of the whole parts at the front that have no LF.
fn skip_parts(s: &[u8]) -> usize
    ensures { (result ≤ length s.now) × (result + length_with_lf (drop result s.now)
        ≡ length_with_lf s.now) }
{
    let mut i = 0;
    // A while: each step is a whole part, and its place is the answer, so that a chain of parts would be no plainer.
    while PART <= s.len() - i {
        if has_lf(s, i) {
            return i;
        }
        i += PART;
    }
    i
}

// The bytes up to the first LF, that LF counted.
fn line_length(s: &[u8]) -> usize
    ensures { result ≡ length_with_lf s.now }
{
    for i in skip_parts(s)..s.len() {
        if s[i] == b'\n' {
            return i + 1;
        }
    }
    s.len()
}

// Where the line that starts at `at` ends.
pub fn next_line(text: &[u8], at: usize) -> usize
    requires { at ≤ length text.now }
    ensures { result ≡ at + length_with_lf (drop at text.now) }
{
    at + line_length(&text[at..])
}

// The opening brackets before the first LF.
pub fn opens(s: &[u8]) -> usize
    ensures { result ≡ line_opens s.now }
{
    s.iter()
        .take_while(|b| **b != b'\n')
        .filter(|b| **b == b'(')
        .count()
}

// `(in `, `(gate ` or `(out ` stands before the name that a line declares.
fn name_offset(letter: u8) -> usize
    ensures { result ≡ name_offset letter }
{
    if letter == b'i' {
        return 4;
    }
    if letter == b'g' { 6 } else { 5 }
}

// The line at the front of the rest of a text: it has one bracket that is no gate's.
pub fn line_of(s: &[u8]) -> Line
    requires { length s.now ≤ max_text }
    ensures { LineOf s.now result }
{
    let length = line_length(s);
    let name = name_offset(byte_at(s, 1));
    Line {
        length,
        name,
        gates: count(&s[..length], b'(').saturating_sub(1),
    }
}
