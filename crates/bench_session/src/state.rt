// Where a run of the bench stands, the room that its buffers need, and what a byte of input leaves. The state goes by
// value; the buffers are lent.
ghost use Rattle.std.specs.Prelude.{◌≡◌};
ghost use Rattle.bench_session.specs.Session.{has_ended, Fresh};

use words_layout::limits::{MAX_INPUTS, MAX_NAME, MAX_OUTPUTS};

// The bytes of a line that are held: `(set`, a pair for each input, `)`, LF, and one more, which shows that the line is
// longer. Room for the buffer `line`.
pub const LINE_BYTES: usize = 4 + (MAX_NAME + 5) * MAX_INPUTS + 2 + 1;

// The bytes of the longest answer: `(show`, a pair for each output, `)` and LF. Room for the buffer `out`.
pub const ANSWER_BYTES: usize = 5 + (MAX_NAME + 5) * MAX_OUTPUTS + 2;

// Where a run stands.
#[derive(Clone, Copy)]
pub enum State {
    // In the netlist: the bytes of it that are held, and whether the next one stands at its beginning or behind an LF.
    Netlist { length: usize, fresh: bool },
    // In the set lines: the block's words, and the bytes of the line that are held.
    Lines { words: usize, length: usize },
    // Behind a refused netlist.
    Ended,
}

// The next state, and how many bytes of an answer stand in the buffer.
#[derive(Drop)]
pub struct Fed {
    pub state: State,
    pub written: usize,
}

// The state before the first byte.
pub fn start() -> State
    ensures { Fresh result }
{
    State::Netlist {
        length: 0,
        fresh: true,
    }
}

// Whether the run is over before its input ends: behind a refused netlist nothing is written any more.
pub fn is_over(state: State) -> bool
    ensures { result ≡ has_ended state }
{
    matches!(state, State::Ended)
}
