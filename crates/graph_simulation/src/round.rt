// Event-driven rounds up to the least fixpoint: the first round evaluates all gates, a later one the fan-out of the
// gates that the round before changed.
ghost use Rattle.std.specs.Prelude.{◌≡◌, length};
ghost use Rattle.graph_gates.specs.Graph.{graph_size};
ghost use Rattle.graph_gates.specs.Fanout.{Empty};
ghost use Rattle.graph_simulation.specs.Rounded.{PreparedFor, Unsettled, SettledIn};

use crate::changes::{Found, PreparedBlock};
use graph_gates::fanout::{FANOUT_WORDS, link_slots};
use graph_gates::graph::GateGraph;
use graph_gates::{GRAPH_WORDS, PLACES, decode_gates};
use words_layout::block::Block;
use words_layout::limits::MAX_GATES;
use words_layout::offsets::gates_of;

// The byte of a gate that has no value.
pub const UNDEFINED: u8 = 2;

// Prepares a block for settling: its graph and its fan-out, into arrays of zeros.
pub fn prepare(block: &Block, graph: &mut [u16; GRAPH_WORDS], fanout: &mut [u16; FANOUT_WORDS])
    requires { (length graph.old ≡ graph_size) × Empty fanout.old }
    ensures { PreparedFor block.now.words.now graph.new fanout.new }
{
    decode_gates(block, graph);
    let decoded = GateGraph {
        words: graph,
        gates: gates_of(block.words),
    };
    link_slots(decoded, fanout);
}

// Settles a prepared block in place: at first the inputs have their values, and no gate has one. Runs rounds from all
// gates undefined until one changes nothing; gives how many change something.
pub fn settle_prepared(block: PreparedBlock<'_>, values: &mut [u8; PLACES]) -> usize
    requires { Unsettled values.old }
    ensures { SettledIn block.entry.graph.gates block.entry.graph.words.now values.old values.new result }
{
    let mut found = Found {
        codes: [UNDEFINED; MAX_GATES],
        queue: [0; MAX_GATES],
        end: 0,
    };
    found.update_all(block, values);
    let mut head = 0;
    let mut count = 0;
    // How many rounds there are is the answer, known once a round changes nothing.
    while head < found.end {
        let tail = found.end;
        found.next_round(block, head, values);
        head = tail;
        count += 1;
    }
    count
}
