// Bytes, names, numbers and operands, each appended to a text at `at`. Each function answers the new end. What does not
// fit into the text is left out, and counted all the same. `refusal_line` puts a refusal's line together of them.
//
// A struct of the text and its end, with these functions as methods, was tried on the first two and their caller. It
// proves and is no plainer: each contract has to say that the text lent is still the same one, and what is promised of
// closures (`each`) would be of every writer of that text.
#![tactic(auto)]

ghost use Rattle.std.specs.Prelude.{◌≡◌, [], ◌∷◌, ◌≤◌};
ghost use Rattle.prelude.specs.Lists.{trimmed};
ghost use Rattle.netlist.specs.Kinds.{keyword};
ghost use Rattle.netlist.specs.StoredBlock.{bytes_at, name_at};
ghost use Rattle.netlist.specs.Writing.{decimal, gate_name};
ghost use Rattle.words_layout.specs.Bounds.{written_room};
ghost use Rattle.text_pieces.specs.Pieces.{Appended, Short, pair_piece, digit_at, operand_text};

use words_layout::kinds::signature_of;
use words_layout::limits::MAX_NAME;
use words_layout::nodes::{CONSTANT_0, CONSTANT_1};
use words_layout::offsets::{INPUTS_AT, NAME_SIZE, inputs_of};
use words_layout::read::word_at;
use words_layout::trim::trimmed_length;

pub mod each;
pub mod refusal_line;

// Appends one byte.
pub fn put(text: &mut [u8], at: usize, byte: u8) -> usize
    requires { Short (byte ∷ []) at }
    ensures { Appended (byte ∷ []) text.old at text.new result }
{
    let end = at + 1;
    if at < text.len() {
        text[at] = byte;
    }
    end
}

// Appends all bytes of a slice.
pub fn put_all(text: &mut [u8], at: usize, bytes: &[u8]) -> usize
    requires { Short bytes.now at }
    ensures { Appended bytes.now text.old at text.new result }
{
    let mut end = at;
    for byte in bytes {
        end = put(text, end, *byte);
    }
    end
}

// Appends the bytes without the zeros at the end, which are looked for from the end.
fn put_without_zeros(text: &mut [u8], at: usize, bytes: &[u8]) -> usize
    requires { Short (trimmed bytes.now) at }
    ensures { Appended (trimmed bytes.now) text.old at text.new result }
{
    let count = trimmed_length(bytes);
    put_all(text, at, &bytes[..count])
}

// Appends the bytes without the zeros at the end, looked for from the start: the first zero is mostly the first of
// those at the end.
fn put_trimmed(text: &mut [u8], at: usize, bytes: &[u8]) -> usize
    requires { Short (trimmed bytes.now) at }
    ensures { Appended (trimmed bytes.now) text.old at text.new result }
{
    let mut end = at;
    for i in 0..bytes.len() {
        if bytes[i] == 0 {
            return put_without_zeros(text, end, &bytes[i..]);
        }
        end = put(text, end, bytes[i]);
    }
    end
}

// The eight bytes of the name at `from`: a word has two, the lower one first (SPECIFICATION 2.2).
pub fn name_bytes(words: &[u16], from: usize) -> [u8; MAX_NAME]
    requires { from ≤ written_room }
    ensures { result ≡ bytes_at words.now from }
{
    let a = word_at(words, from);
    let b = word_at(words, from + 1);
    let c = word_at(words, from + 2);
    let d = word_at(words, from + 3);
    [
        (a % 256) as u8,
        (a / 256) as u8,
        (b % 256) as u8,
        (b / 256) as u8,
        (c % 256) as u8,
        (c / 256) as u8,
        (d % 256) as u8,
        (d / 256) as u8,
    ]
}

// Appends the name whose words start at `from`.
pub fn put_name(text: &mut [u8], at: usize, words: &[u16], from: usize) -> usize
    requires from_le_written_room { from ≤ written_room }
    requires short { Short (name_at words.now from) at }
    ensures { Appended (name_at words.now from) text.old at text.new result }
{
    let bytes = name_bytes(words, from);
    put_trimmed(text, at, &bytes)
}

// Appends ` (NAME VALUE)`: the name whose words start at `from`, and the byte of its value.
pub fn put_pair(text: &mut [u8], at: usize, words: &[u16], from: usize, byte: u8) -> usize
    requires from_le_written_room { from ≤ written_room }
    requires short { Short (pair_piece words.now from byte) at }
    ensures { Appended (pair_piece words.now from byte) text.old at text.new result }
{
    let opened = put_all(text, at, b" (");
    let named = put_name(text, opened, words, from);
    let spaced = put(text, named, b' ');
    let filled = put(text, spaced, byte);
    put(text, filled, b')')
}

// Appends the decimal digits of a number.
pub fn put_decimal(text: &mut [u8], at: usize, v: usize) -> usize
    requires { Short (decimal v) at }
    ensures { Appended (decimal v) text.old at text.new result }
{
    if v < 10 {
        return put(text, at, (48 + v) as u8);
    }
    let end = put_decimal(text, at, v / 10);
    put(text, end, (48 + v % 10) as u8)
}

// Appends the digit of v that counts `unit`s, where v has one.
fn put_digit(text: &mut [u8], at: usize, v: usize, unit: usize) -> usize
    requires le_unit { 1 ≤ unit }
    requires short { Short (digit_at v unit) at }
    ensures { Appended (digit_at v unit) text.old at text.new result }
{
    if v < unit {
        return at;
    }
    put(text, at, (48 + v / unit % 10) as u8)
}

// Appends the decimal digits of a number, which is mostly a gate's: one after the other, without a call for each.
fn put_number(text: &mut [u8], at: usize, v: usize) -> usize
    requires { Short (decimal v) at }
    ensures { Appended (decimal v) text.old at text.new result }
{
    if 10000 <= v {
        return put_decimal(text, at, v);
    }
    let thousands = put_digit(text, at, v, 1000);
    let hundreds = put_digit(text, thousands, v, 100);
    let tens = put_digit(text, hundreds, v, 10);
    put(text, tens, (48 + v % 10) as u8)
}

// Appends the name of gate j: `_` and its number.
pub fn put_gate_name(text: &mut [u8], at: usize, j: usize) -> usize
    requires { Short (gate_name j) at }
    ensures { Appended (gate_name j) text.old at text.new result }
{
    let end = put(text, at, b'_');
    put_number(text, end, j)
}

// Appends the keyword of a kind.
pub fn put_keyword(text: &mut [u8], at: usize, kind: usize) -> usize
    requires { Short (keyword kind) at }
    ensures { Appended (keyword kind) text.old at text.new result }
{
    let signature = signature_of(kind);
    let bytes = signature.keyword;
    put_trimmed(text, at, &bytes)
}

// Appends the operand whose word is at `from`: an input's name, a gate's name, `0` or `1`.
pub fn put_operand(text: &mut [u8], at: usize, words: &[u16], from: usize) -> usize
    requires { Short (operand_text words.now from) at }
    ensures { Appended (operand_text words.now from) text.old at text.new result }
{
    let n = inputs_of(words);
    let word = word_at(words, from);
    if word < n {
        return put_name(text, at, words, INPUTS_AT + NAME_SIZE * word);
    }
    match word {
        CONSTANT_0 => put(text, at, b'0'),
        CONSTANT_1 => put(text, at, b'1'),
        _ => put_gate_name(text, at, word - n),
    }
}
