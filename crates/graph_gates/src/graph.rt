// A legal graph and one gate of a graph, each as one value: what makes them legal is a ghost field, so that whoever is
// lent one asks for nothing more.
ghost use Rattle.std.specs.Prelude.{◌≡◌, ◌*◌, ◌<◌, get_or};
ghost use Rattle.netlist.specs.Limits.{max_gates};
ghost use Rattle.graph_gates.specs.Places.{place_count};
ghost use Rattle.graph_gates.specs.Graph.{Graph, Node, node_size, slots, place_at};

use crate::{GRAPH_WORDS, NODE_SIZE};

// The words of a graph, and how many gates it has.
#[derive(Clone, Copy)]
pub struct GateGraph<'a> {
    pub words: &'a [u16; GRAPH_WORDS],
    pub gates: usize,
    pub ghost legal: { Graph gates words.now },
}

// One gate of a graph, which has room for as many as a block may have.
#[derive(Clone, Copy)]
pub struct Gate<'a> {
    pub graph: &'a [u16; GRAPH_WORDS],
    pub number: usize,
    pub ghost below: { number < max_gates },
    pub ghost legal: { Node max_gates graph.now number },
}

impl<'a> Gate<'a> {
    // The gate's operation.
    pub fn operation(self) -> usize
        ensures { result ≡ get_or self.entry.graph.now (node_size * self.entry.number) 0 }
    {
        self.graph[NODE_SIZE * self.number] as usize
    }

    // The place of operand `i`.
    pub fn place(self, i: usize) -> usize
        requires { i < slots }
        ensures { (result ≡ place_at self.entry.graph.now self.entry.number i) × (result < place_count) }
    {
        self.graph[NODE_SIZE * self.number + 1 + i] as usize
    }
}

impl<'a> GateGraph<'a> {
    // Gate `j` of the graph.
    pub fn gate(self, j: usize) -> Gate<'a>
        requires { j < self.gates }
        ensures { (result.graph.now ≡ self.entry.words.now) × (result.number ≡ j) }
    {
        Gate {
            graph: self.words,
            number: j,
        }
    }
}
