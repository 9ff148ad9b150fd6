// The set lines of the bench's input: the bytes of a line are held, no more of them than tell that it is out of form,
// and at its LF the line is answered.
ghost use Rattle.std.specs.Prelude.{◌≡◌, false, List, ℕ, ◌≤◌, length, take};
ghost use Rattle.netlist.specs.StoredBlock.{is_malformed, decode};
ghost use Rattle.netlist.specs.Bench.{line_answer, line_answers, last_line};
ghost use Rattle.graph_simulation.specs.Rounded.{PreparedFor};
ghost use Rattle.bench_session.specs.Runs.{held_bytes, in_lines, turn};
ghost use Rattle.bench_session.specs.Session.{max_answer, TextHeld, LineRoom, SessionStepped, AnswerWritten};

use crate::state::{Fed, LINE_BYTES, State};
use bench_set_line::answer_line;
use graph_gates::GRAPH_WORDS;
use graph_gates::fanout::FANOUT_WORDS;
use graph_simulation::table::gate_table;
use text_pieces::refusal_line::tell;
use words_layout::block::Block;

// A block that is prepared: the first `count` of `words`, with its graph and its fan-out.
#[derive(Clone, Copy)]
pub struct Prepared<'a> {
    pub count: usize,
    pub words: &'a [u16],
    pub graph: &'a [u16; GRAPH_WORDS],
    pub fanout: &'a [u16; FANOUT_WORDS],
}

// Answers the line that is held.
fn answer(block: Prepared<'_>, line: &[u8], out: &mut [u8]) -> usize
    requires { (block.count ≤ length block.words.now) × (is_malformed (take block.count block.words.now) ≡ false)
        × PreparedFor (take block.count block.words.now) block.graph.now block.fanout.now
        × (max_answer ≤ length out.old) }
    ensures { AnswerWritten (line_answer (decode (take block.entry.count block.entry.words.now)) line.now) out.new
        result }
{
    let table = gate_table();
    let whole = Block {
        words: &block.words[..block.count],
    };
    match answer_line(&whole, &table, block.graph, block.fanout, line, out) {
        Err(why) => tell(why, out),
        Ok(done) => done.count,
    }
}

// Holds one byte more where there is room for it; gives how many are held then. The byte goes behind those held, so that
// their number is no slice's length.
fn hold(line: &mut [u8], held: usize, byte: u8) -> usize
    requires { (held ≤ held_bytes) × (held_bytes ≤ length line.old) }
    ensures { TextHeld (take held line.old) byte line.new result }
{
    if held < LINE_BYTES {
        line[held] = byte;
        return held + 1;
    }
    held
}

// Takes one byte of a line.
pub fn line_byte(block: Prepared<'_>, held: usize, byte: u8, line: &mut [u8], out: &mut [u8]) -> Fed
    requires { LineRoom block.count held block.words.now block.graph.now block.fanout.now line.old out.old }
    ensures { (text : List ℕ)
        → SessionStepped (turn (in_lines (take block.entry.count block.entry.words.now) (take held line.old)) byte)
        result.state text
        block.entry.words.now block.entry.graph.now block.entry.fanout.now line.new out.new
        result.written }
{
    let kept = hold(line, held, byte);
    if byte != b'\n' {
        return Fed {
            state: State::Lines {
                words: block.count,
                length: kept,
            },
            written: 0,
        };
    }
    let written = answer(block, &line[..kept], out);
    Fed {
        state: State::Lines {
            words: block.count,
            length: 0,
        },
        written,
    }
}

// Ends the input inside a line: it is answered unless it is empty.
pub fn end_line(block: Prepared<'_>, held: usize, line: &[u8], out: &mut [u8]) -> usize
    requires { LineRoom block.count held block.words.now block.graph.now block.fanout.now line.now out.old }
    ensures { AnswerWritten (line_answers (decode (take block.entry.count block.entry.words.now))
        (last_line (take held line.now))) out.new result }
{
    if held == 0 {
        return 0;
    }
    answer(block, &line[..held], out)
}
