// The order of evaluation: the gates in layers, each one gate that closes no loop, or a whole loop (specs/Layers.antt).
ghost use Rattle.std.specs.Prelude.{◌≤◌};
ghost use Rattle.netlist.specs.Limits.{max_gates};
ghost use Rattle.graph_scc.specs.Layers.{Layers};
ghost use Rattle.graph_scc.specs.Search.{OneLayer};

use crate::check::find_positions;
use crate::layering::Layering;
use crate::notes::NOTES;
use crate::search::find_layers;
use graph_gates::graph::GateGraph;
use words_layout::limits::MAX_GATES;

// Writes all gates by their numbers, as one loop: these are layers of any graph.
fn write_one_layer(m: usize, order: &mut [u16; MAX_GATES], ends: &mut [u16; MAX_GATES])
    requires { m ≤ max_gates }
    ensures { OneLayer m m order.new ends.new }
{
    for i in 0..m {
        order[i] = i as u16;
        ends[i] = m as u16;
    }
}

// Finds the layers, with room lent for what the search notes.
fn layer_with(
    graph: GateGraph,
    notes: &mut [u16; NOTES],
    stack: &mut [u16; MAX_GATES],
    order: &mut [u16; MAX_GATES],
    ends: &mut [u16; MAX_GATES],
)
    ensures { Layers graph.entry.gates graph.entry.words.now order.new ends.new }
{
    find_layers(graph, stack, notes, order, ends);
    // The search is over, so its stack is room for the positions.
    find_positions(graph.gates, order, stack);
    let layering = Layering {
        graph,
        order,
        ends,
        positions: stack,
        notes,
    };
    if !layering.are_layers() {
        write_one_layer(graph.gates, order, ends);
    }
}

// Writes a graph's gates in layers, and where each position's layer ends.
pub fn layer_gates(graph: GateGraph, order: &mut [u16; MAX_GATES], ends: &mut [u16; MAX_GATES])
    ensures { Layers graph.entry.gates graph.entry.words.now order.new ends.new }
{
    let mut notes = [0u16; NOTES];
    let mut stack = [0u16; MAX_GATES];
    layer_with(graph, &mut notes, &mut stack, order, ends);
}
