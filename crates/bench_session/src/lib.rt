// The bench in pieces of its input: the state goes in by value and comes back (`state`), the buffers are lent. `feed`
// takes a piece of input up to its first answer, `finish` answers what is left at the input's end. A block is tested
// and prepared once, when it is read (`netlist_part`): `graph` and `fanout` are room for that; then come set lines
// (`line_part`). Whatever the pieces, what is written is the bench's output (`pieces-bench` in proofs/Pieces.antt).
#![tactic(auto)]

ghost use Rattle.bench_session.specs.Runs.{turn, ending};
ghost use Rattle.bench_session.specs.Session.{run_of, SessionReady, AnswerWritten, SessionStepped, Advanced};

use crate::line_part::{Prepared, end_line, line_byte};
use crate::netlist_part::{end_netlist, netlist_byte};
use crate::state::{Fed, State};
use graph_gates::GRAPH_WORDS;
use graph_gates::fanout::FANOUT_WORDS;

mod line_part;
mod netlist_part;
pub mod state;

// The next state, how many bytes of an answer stand in the buffer, and how many bytes of the piece were taken.
#[derive(Drop)]
pub struct Progress {
    pub state: State,
    pub taken: usize,
    pub written: usize,
}

// Feeds one byte of input. A struct of the lent buffers would be no plainer: its contract has to say that each is kept.
// What is known of them between two bytes is asked of each function that is lent them, in `netlist_part` and in the
// program too, for the same reason.
fn feed_byte(
    state: State,
    byte: u8,
    text: &mut [u8],
    words: &mut [u16],
    graph: &mut [u16; GRAPH_WORDS],
    fanout: &mut [u16; FANOUT_WORDS],
    line: &mut [u8],
    out: &mut [u8],
) -> Fed
    requires { SessionReady state text.old words.old graph.old fanout.old line.old out.old }
    ensures { SessionStepped (turn (run_of state text.old words.old line.old)
        byte) result.state text.new
        words.new graph.new fanout.new line.new out.new
        result.written }
{
    match state {
        State::Netlist { length, fresh } => {
            netlist_byte(length, fresh, byte, text, words, graph, fanout, out)
        }
        State::Lines {
            words: count,
            length,
        } => {
            let block = Prepared {
                count,
                words,
                graph,
                fanout,
            };
            line_byte(block, length, byte, line, out)
        }
        State::Ended => Fed {
            state: State::Ended,
            written: 0,
        },
    }
}

// Feeds a piece of input, up to the first byte that is answered: how many bytes of it were taken, and the answer's
// bytes at the start of `out`.
pub fn feed(
    state: State,
    piece: &[u8],
    text: &mut [u8],
    words: &mut [u16],
    graph: &mut [u16; GRAPH_WORDS],
    fanout: &mut [u16; FANOUT_WORDS],
    line: &mut [u8],
    out: &mut [u8],
) -> Progress
    requires { SessionReady state text.old words.old graph.old fanout.old line.old out.old }
    ensures { Advanced (run_of state text.old words.old line.old)
        piece.now result.state
        text.new words.new graph.new fanout.new line.new
        out.new result.taken result.written }
{
    let mut state = state;
    let mut taken = 0;
    let mut written = 0;
    // How many bytes were taken is part of the answer, so a range would be no plainer.
    while taken < piece.len() && written == 0 {
        let fed = feed_byte(state, piece[taken], text, words, graph, fanout, line, out);
        state = fed.state;
        written = fed.written;
        taken += 1;
    }
    Progress {
        state,
        taken,
        written,
    }
}

// Ends the input: the answer's bytes at the start of `out`, and how many they are.
pub fn finish(
    state: State,
    text: &[u8],
    words: &mut [u16],
    graph: &mut [u16; GRAPH_WORDS],
    fanout: &mut [u16; FANOUT_WORDS],
    line: &[u8],
    out: &mut [u8],
) -> usize
    requires { SessionReady state text.now words.old graph.old fanout.old line.now out.old }
    ensures { AnswerWritten (ending (run_of state text.now words.old line.now))
        out.new result }
{
    match state {
        State::Netlist { length, fresh: _ } => end_netlist(length, text, words, graph, fanout, out),
        State::Lines {
            words: count,
            length,
        } => {
            let block = Prepared {
                count,
                words,
                graph,
                fanout,
            };
            end_line(block, length, line, out)
        }
        State::Ended => 0,
    }
}
