// The fan-out of a graph: which slots read each gate. Slot i of gate j has number 4 j + i. The slots that read a gate
// form a linked list that goes down: word k has the first slot of gate k's list, and word 1,024 + e the one behind slot
// e. A slot's number stands there plus 1; 0 ends a list.
ghost use Rattle.graph_gates.specs.Fanout.{slot_place, LinkReady, Linked, Empty, Fanout};

use crate::graph::GateGraph;
use crate::{FIRST_GATE, GRAPH_WORDS, SLOTS};
use words_layout::limits::MAX_GATES;

// Where the links from slot to slot begin, and the number of all words.
pub const NEXT_AT: usize = MAX_GATES;

pub const FANOUT_WORDS: usize = NEXT_AT + SLOTS * MAX_GATES;

// Puts slot `e` in front of the list of the gate that it reads, if what it reads is one.
fn link(graph: &[u16; GRAPH_WORDS], e: usize, fanout: &mut [u16; FANOUT_WORDS])
    requires { LinkReady graph.now e fanout.old }
    ensures { Linked (slot_place graph.now e) e fanout.old fanout.new }
{
    let place = graph[e + e / SLOTS + 1] as usize;
    if FIRST_GATE <= place {
        let k = place - FIRST_GATE;
        fanout[NEXT_AT + e] = fanout[k];
        fanout[k] = (e + 1) as u16;
    }
}

// The fan-out of a graph, into lists that are empty at first.
pub fn link_slots(graph: GateGraph, fanout: &mut [u16; FANOUT_WORDS])
    requires { Empty fanout.old }
    ensures { Fanout graph.entry.gates graph.entry.words.now fanout.new }
{
    for e in 0..SLOTS * graph.gates {
        link(graph.words, e, fanout);
    }
}
