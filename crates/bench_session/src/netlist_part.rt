// The netlist part of the bench's input: its bytes are held until an empty line ends it, and then the block is read.
ghost use Rattle.std.specs.Prelude.{List, [], ℕ, ◌≤◌, length, take};
ghost use Rattle.netlist.specs.Limits.{max_text, max_block};
ghost use Rattle.netlist.specs.Operations.{read_text};
ghost use Rattle.netlist.specs.Bench.{bench_after};
ghost use Rattle.bench_session.specs.Runs.{in_netlist, opened, turn};
ghost use Rattle.bench_session.specs.Session.{max_answer, Unprepared, SessionStepped, AnswerWritten};

use crate::state::{Fed, State};
use graph_gates::GRAPH_WORDS;
use graph_gates::fanout::FANOUT_WORDS;
use graph_simulation::round::prepare;
use netlist::Refusal;
use op_read::read;
use text_pieces::refusal_line::tell;
use words_layout::block::Block;
use words_layout::limits::MAX_TEXT;

// Reads the block, and prepares it; a refusal ends the run.
fn open(
    held: usize,
    text: &[u8],
    words: &mut [u16],
    graph: &mut [u16; GRAPH_WORDS],
    fanout: &mut [u16; FANOUT_WORDS],
    out: &mut [u8],
) -> Fed
    requires { (held ≤ length text.now) × (max_block ≤ length words.old) × (max_answer ≤ length out.old)
        × Unprepared graph.old fanout.old }
    ensures { (line : List ℕ)
        → SessionStepped (opened (read_text (take held text.now))) result.state text.now
        words.new graph.new fanout.new line out.new result.written }
{
    match read(&text[..held], words) {
        Err(why) => {
            let written = tell(why, out);
            Fed {
                state: State::Ended,
                written,
            }
        }
        Ok(done) => {
            let count = done.count;
            let block = Block {
                words: &words[..count],
            };
            prepare(&block, graph, fanout);
            Fed {
                state: State::Lines {
                    words: count,
                    length: 0,
                },
                written: 0,
            }
        }
    }
}

// Takes one byte of the netlist: an empty line ends it; of a text that gets too long no more is held.
pub fn netlist_byte(
    held: usize,
    fresh: bool,
    byte: u8,
    text: &mut [u8],
    words: &mut [u16],
    graph: &mut [u16; GRAPH_WORDS],
    fanout: &mut [u16; FANOUT_WORDS],
    out: &mut [u8],
) -> Fed
    requires { (held ≤ max_text) × (max_text ≤ length text.old) × (max_block ≤ length words.old)
        × (max_answer ≤ length out.old)
        × Unprepared graph.old fanout.old }
    ensures { (line : List ℕ)
        → SessionStepped (turn (in_netlist fresh (take held text.old)) byte) result.state text.new
        words.new graph.new fanout.new line out.new result.written }
{
    if fresh && byte == b'\n' {
        return open(held, text, words, graph, fanout, out);
    }
    if held < MAX_TEXT {
        text[held] = byte;
        return Fed {
            state: State::Netlist {
                length: held + 1,
                fresh: byte == b'\n',
            },
            written: 0,
        };
    }
    let written = tell(Refusal::TextTooLong, out);
    Fed {
        state: State::Ended,
        written,
    }
}

// Ends the input inside the netlist: a refusal is told, and a good netlist gives nothing.
pub fn end_netlist(
    held: usize,
    text: &[u8],
    words: &mut [u16],
    graph: &mut [u16; GRAPH_WORDS],
    fanout: &mut [u16; FANOUT_WORDS],
    out: &mut [u8],
) -> usize
    requires { (held ≤ length text.now) × (max_block ≤ length words.old) × (max_answer ≤ length out.old)
        × Unprepared graph.old fanout.old }
    ensures { AnswerWritten (bench_after (read_text (take held text.now)) []) out.new result }
{
    let fed = open(held, text, words, graph, fanout, out);
    fed.written
}
