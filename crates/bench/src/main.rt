// The program `bench`: moves bytes from standard input to `bench_session`, and the answers to standard output. What is
// there is read and answered at once, so that it serves a terminal and a pipe. A proved loop has to end, and nothing
// says that the input does: the loop over reads counts up to a number that no run reaches.
#![tactic(auto)]

ghost use Rattle.std.specs.Prelude.{◌≤◌, length};
ghost use Rattle.bench_session.specs.Session.{Unprepared, SessionReady, SessionRoom};

use bench_session::state::{ANSWER_BYTES, LINE_BYTES, State, is_over, start};
use bench_session::{feed, finish};
use graph_gates::GRAPH_WORDS;
use graph_gates::fanout::FANOUT_WORDS;
use std::io::{Read, Stdin};
use words_layout::limits::{BLOCK_WORDS, MAX_TEXT};

// What serving some input came to: the state after it, and whether to read on.
#[derive(Drop)]
struct Served {
    state: State,
    more: bool,
}

// Feeds a piece of input and writes each answer in it; gives the state after the piece.
fn serve_piece(
    state: State,
    piece: &[u8],
    text: &mut [u8],
    words: &mut [u16],
    graph: &mut [u16; GRAPH_WORDS],
    fanout: &mut [u16; FANOUT_WORDS],
    line: &mut [u8],
    out: &mut [u8],
) -> State
    requires { SessionReady state text.old words.old graph.old fanout.old line.old out.old }
    ensures { SessionReady result text.new words.new graph.new fanout.new
        line.new out.new }
{
    let mut state = state;
    let mut at = 0;
    // Each turn goes on behind what the last answer took, so that no range counts the turns.
    while at < piece.len() {
        let fed = feed(state, &piece[at..], text, words, graph, fanout, line, out);
        io::write_all(1, &out[..fed.written]);
        state = fed.state;
        at += fed.taken;
    }
    state
}

// One read of what is there now: how many bytes of it stand in front of the piece, 0 at the input's end. A read that
// fails ends the input too.
fn read_some(input: Stdin, piece: &mut [u8]) -> usize
    ensures { result ≤ length piece.new }
{
    let mut input = input;
    match input.read(piece) {
        Ok(n) => n,
        Err(_) => 0,
    }
}

// Reads the input that is there now, and answers it.
fn serve_some(
    input: Stdin,
    state: State,
    text: &mut [u8],
    words: &mut [u16],
    graph: &mut [u16; GRAPH_WORDS],
    fanout: &mut [u16; FANOUT_WORDS],
    line: &mut [u8],
    out: &mut [u8],
) -> Served
    requires { SessionReady state text.old words.old graph.old fanout.old line.old out.old }
    ensures { SessionReady result.state text.new words.new graph.new
        fanout.new
        line.new out.new }
{
    let mut piece = io::buffer();
    let n = read_some(input, &mut piece);
    if n == 0 {
        return Served { state, more: false };
    }
    let state = serve_piece(state, &piece[..n], text, words, graph, fanout, line, out);
    let more = !is_over(state);
    Served { state, more }
}

// Reads and answers until the input ends or the netlist is refused, and answers what is left then.
fn serve(
    input: Stdin,
    text: &mut [u8],
    words: &mut [u16],
    graph: &mut [u16; GRAPH_WORDS],
    fanout: &mut [u16; FANOUT_WORDS],
    line: &mut [u8],
    out: &mut [u8],
)
    requires { SessionRoom text.old words.old line.old out.old × Unprepared graph.old fanout.old }
{
    let mut state = start();
    for _ in 0..u64::MAX {
        let served = serve_some(input, state, text, words, graph, fanout, line, out);
        state = served.state;
        if !served.more {
            break;
        }
    }
    let written = finish(state, text, words, graph, fanout, line, out);
    io::write_all(1, &out[..written]);
}

fn main(rt: HostRuntime) {
    let mut text = [0u8; MAX_TEXT];
    let mut words = [0u16; BLOCK_WORDS];
    let mut graph = [0u16; GRAPH_WORDS];
    let mut fanout = [0u16; FANOUT_WORDS];
    let mut line = [0u8; LINE_BYTES];
    let mut out = [0u8; ANSWER_BYTES];
    serve(
        rt.stdin(),
        &mut text,
        &mut words,
        &mut graph,
        &mut fanout,
        &mut line,
        &mut out,
    );
}
