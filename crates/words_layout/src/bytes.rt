// Single bytes of a text, read with 0 past its end, which is no legal byte; and which bytes a name has (SPECIFICATION
// 1.2).
ghost use Rattle.std.specs.Prelude.{◌≡◌, get_or};
ghost use Rattle.netlist.specs.Names.{is_letter, is_digit, is_name_start, is_name_byte};

// The byte at `i`, or 0.
pub fn byte_at(s: &[u8], i: usize) -> u8
    ensures { result ≡ get_or s.now i 0 }
{
    if i < s.len() { s[i] } else { 0 }
}

// Is the byte a letter, a-z?
pub fn is_letter(c: u8) -> bool
    ensures { result ≡ is_letter c }
{
    b'a' <= c && c <= b'z'
}

// Is the byte a digit, 0-9?
pub fn is_digit(c: u8) -> bool
    ensures { result ≡ is_digit c }
{
    b'0' <= c && c <= b'9'
}

// May the byte begin a gate's name?
pub fn is_name_start(c: u8) -> bool
    ensures { result ≡ is_name_start c }
{
    if is_letter(c) { true } else { c == b'_' }
}

// May the byte stand in a name?
pub fn is_name_byte(c: u8) -> bool
    ensures { result ≡ is_name_byte c }
{
    if is_digit(c) { true } else { is_name_start(c) }
}
