// What the search wrote and noted of a graph, as the checks read it.
use crate::notes::NOTES;
use graph_gates::graph::GateGraph;
use words_layout::limits::MAX_GATES;

// A graph, the order and the ends of layers that the search wrote, where each gate stands in the
// order, and what the search noted of each gate. That these are layers, and components, is for the checks to say.
#[derive(Clone, Copy)]
pub struct Layering<'a> {
    pub graph: GateGraph<'a>,
    pub order: &'a [u16; MAX_GATES],
    pub ends: &'a [u16; MAX_GATES],
    pub positions: &'a [u16; MAX_GATES],
    pub notes: &'a [u16; NOTES],
}
