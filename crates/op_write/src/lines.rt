// The lines of a text, those of inputs, gates and outputs, appended as in crates/text_pieces, and the whole of it (SPECIFICATION
// 1).
ghost use Rattle.std.specs.Prelude.{◌≤◌};
ghost use Rattle.words_layout.specs.Bounds.{max_word, written_room, line_room};
ghost use Rattle.text_pieces.specs.Pieces.{Appended, Short, pieces};
ghost use Rattle.op_write.specs.Lines.{item_text, expression_text, input_text, gate_text, output_text, block_text};

use crate::nevers::put_nevers;
use text_pieces::each::put_each;
use text_pieces::{put, put_all, put_gate_name, put_keyword, put_name, put_operand};
use words_layout::block::Block;
use words_layout::offsets::{
    GATE_SIZE, INPUTS_AT, NAME_SIZE, OUTPUT_SIZE, gates_at, gates_of, inputs_of, nevers_at,
    nevers_of, outputs_at, outputs_of,
};
use words_layout::read::word_at;

// Appends a space and operand i of the gate whose first word is at `from`.
fn put_item(text: &mut [u8], at: usize, words: &[u16], from: usize, i: usize) -> usize
    requires from_le_written_room { (from ≤ written_room) × (i ≤ max_word) }
    requires short { Short (item_text words.now from i) at }
    ensures { Appended (item_text words.now from i) text.old at text.new result }
{
    let end = put(text, at, b' ');
    put_operand(text, end, words, from + 1 + i)
}

fn put_items(text: &mut [u8], at: usize, words: &[u16], from: usize, count: usize) -> usize
    requires from_le_written_room { (from ≤ written_room) × (count ≤ max_word) }
    requires short { Short (pieces (item_text words.now from) count) at }
    ensures { Appended (pieces (item_text words.now from) count) text.old at text.new result }
{
    put_each(
        text,
        at,
        count,
        |text, end, i| put_item(text, end, words, from, i),
    )
}

// Appends `(KIND OPERAND ...)`: the expression of the gate whose first word is at `from`.
fn put_expression(text: &mut [u8], at: usize, words: &[u16], from: usize) -> usize
    requires from_le_written_room { from ≤ written_room }
    requires short { Short (expression_text words.now from) at }
    ensures { Appended (expression_text words.now from) text.old at text.new result }
{
    let head = word_at(words, from);
    let opened = put(text, at, b'(');
    let named = put_keyword(text, opened, head % 8);
    let filled = put_items(text, named, words, from, head / 8);
    put(text, filled, b')')
}

// Appends `(gate NAME EXPR)` and its LF: gate j of those from `from` on.
fn put_gate(text: &mut [u8], at: usize, words: &[u16], from: usize, j: usize) -> usize
    requires from_le_line_room { (from ≤ line_room) × (j ≤ max_word) }
    requires short { Short (gate_text words.now from j) at }
    ensures { Appended (gate_text words.now from j) text.old at text.new result }
{
    let opened = put_all(text, at, b"(gate ");
    let named = put_gate_name(text, opened, j);
    let spaced = put(text, named, b' ');
    let filled = put_expression(text, spaced, words, from + GATE_SIZE * j);
    put_all(text, filled, b")\n")
}

fn put_gates(text: &mut [u8], at: usize, words: &[u16], from: usize, m: usize) -> usize
    requires from_le_line_room { (from ≤ line_room) × (m ≤ max_word) }
    requires short { Short (pieces (gate_text words.now from) m) at }
    ensures { Appended (pieces (gate_text words.now from) m) text.old at text.new result }
{
    put_each(
        text,
        at,
        m,
        |text, end, j| put_gate(text, end, words, from, j),
    )
}

// Appends `(in NAME)` and its LF.
fn put_input(text: &mut [u8], at: usize, words: &[u16], i: usize) -> usize
    requires i_le_max_word { i ≤ max_word }
    requires short { Short (input_text words.now i) at }
    ensures { Appended (input_text words.now i) text.old at text.new result }
{
    let opened = put_all(text, at, b"(in ");
    let named = put_name(text, opened, words, INPUTS_AT + NAME_SIZE * i);
    put_all(text, named, b")\n")
}

fn put_inputs(text: &mut [u8], at: usize, words: &[u16], n: usize) -> usize
    requires n_le_max_word { n ≤ max_word }
    requires short { Short (pieces (input_text words.now) n) at }
    ensures { Appended (pieces (input_text words.now) n) text.old at text.new result }
{
    put_each(text, at, n, |text, end, i| put_input(text, end, words, i))
}

// Appends `(out PORT NAME)` and its LF: output o of those from `from` on.
fn put_output(text: &mut [u8], at: usize, words: &[u16], from: usize, o: usize) -> usize
    requires from_le_line_room { (from ≤ line_room) × (o ≤ max_word) }
    requires short { Short (output_text words.now from o) at }
    ensures { Appended (output_text words.now from o) text.old at text.new result }
{
    let port = from + OUTPUT_SIZE * o;
    let opened = put_all(text, at, b"(out ");
    let named = put_name(text, opened, words, port);
    let spaced = put(text, named, b' ');
    let shown = put_operand(text, spaced, words, port + NAME_SIZE);
    put_all(text, shown, b")\n")
}

fn put_outputs(text: &mut [u8], at: usize, words: &[u16], from: usize, k: usize) -> usize
    requires from_le_line_room { (from ≤ line_room) × (k ≤ max_word) }
    requires short { Short (pieces (output_text words.now from) k) at }
    ensures { Appended (pieces (output_text words.now from) k) text.old at text.new result }
{
    put_each(
        text,
        at,
        k,
        |text, end, o| put_output(text, end, words, from, o),
    )
}

// Writes the lines of all inputs, never lines, gates and outputs, from the text's beginning.
pub fn put_block(text: &mut [u8], block: &Block) -> usize
    ensures { Appended (block_text block.now.words.now) text.old 0 text.new result }
{
    let words = block.words;
    let n = inputs_of(words);
    let first = put_inputs(text, 0, words, n);
    let second = put_nevers(text, first, words, nevers_at(n), nevers_of(words));
    let third = put_gates(text, second, words, gates_at(words), gates_of(words));
    put_outputs(text, third, words, outputs_at(words), outputs_of(words))
}
