// The show line of a block under a setting of its inputs, appended piece by piece as Write does (`text_pieces`).
ghost use Rattle.std.specs.Prelude.{◌≡◌, [], ◌∷◌, length};
ghost use Rattle.netlist.specs.Values.{value_of};
ghost use Rattle.netlist.specs.Answers.{in_room, Promise};
ghost use Rattle.netlist.specs.Operations.{counted};
ghost use Rattle.netlist.specs.Syntax.{value_text};
ghost use Rattle.text_pieces.specs.Pieces.{Appended, Short, pieces};
ghost use Rattle.bench_set_line.specs.Shown.{PortOf, PortsOf, port_piece, show_text};

use graph_gates::PLACES;
use graph_simulation::output::shown_value;
use netlist::{Answer, Done};
use text_pieces::each::put_each;
use text_pieces::{put, put_all, put_name};
use words_layout::block::Block;
use words_layout::offsets::{OUTPUT_SIZE, inputs_of, outputs_at, outputs_of};
use words_refusals::test_room;

// The byte of a value: `0`, `1` or `u`.
fn value_byte(v: u8) -> u8
    ensures { result ∷ [] ≡ value_text (value_of v) }
{
    match v {
        0 => b'0',
        1 => b'1',
        _ => b'u',
    }
}

// Appends a port and its value: output o of those from `from` on.
fn put_port(
    text: &mut [u8],
    at: usize,
    words: &[u16],
    from: usize,
    o: usize,
    values: &[u8; PLACES],
) -> usize
    requires port_of { PortOf words.now from o }
    requires short { Short (port_piece words.now from values.now o) at }
    ensures { Appended (port_piece words.now from values.now o) text.old at
        text.new result }
{
    let port = from + OUTPUT_SIZE * o;
    let value = shown_value(words, inputs_of(words), port, values);
    let opened = put_all(text, at, b" (");
    let named = put_name(text, opened, words, port);
    let spaced = put(text, named, b' ');
    let filled = put(text, spaced, value_byte(value));
    put(text, filled, b')')
}

fn put_ports(
    text: &mut [u8],
    at: usize,
    words: &[u16],
    from: usize,
    k: usize,
    values: &[u8; PLACES],
) -> usize
    requires ports_of { PortsOf words.now from k }
    requires short { Short (pieces (port_piece words.now from values.now) k) at }
    ensures { Appended (pieces (port_piece words.now from values.now) k) text.old
        at text.new result }
{
    put_each(
        text,
        at,
        k,
        move |text, end, o| put_port(text, end, words, from, o, values),
    )
}

// Appends `(show`, the ports and LF.
fn put_show(text: &mut [u8], block: &Block, values: &[u8; PLACES]) -> usize
    ensures { Appended (show_text block.now.words.now values.now) text.old 0
        text.new result }
{
    let from = outputs_at(block.words);
    let k = outputs_of(block.words);
    let opened = put_all(text, 0, b"(show");
    let filled = put_ports(text, opened, block.words, from, k, values);
    put_all(text, filled, b")\n")
}

// The show line of a block whose gates are settled: refusal 11, or its bytes; count: bytes. The first pass is over a text of one byte, and only measures.
pub fn show_settled(block: &Block, values: &[u8; PLACES], out: &mut [u8]) -> Answer
    ensures { Promise (in_room (length out.old)
        (counted (show_text block.now.words.now values.now)))
        out.old result out.new }
{
    let mut small = [0u8; 1];
    let count = put_show(&mut small, block, values);
    test_room(out.len(), count)?;
    put_show(out, block, values);
    Ok(Done { count, detail: 0 })
}
