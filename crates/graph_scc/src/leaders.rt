// The leader of each gate, the lowest gate of its strongly connected component. Tarjan's search writes layers; where
// they are certified to be the components, the first gate of each is found in one walk over the gates. Else `closure`
// finds the leaders.
ghost use Rattle.std.specs.Prelude.{◌≡◌, true, ◌<◌};
ghost use Rattle.netlist.specs.Limits.{max_gates};
ghost use Rattle.graph_gates.specs.Legal.{network_of};
ghost use Rattle.graph_scc.specs.Leaders.{Leads, FirstOf};
ghost use Rattle.graph_scc.specs.Checked.{IsCertified};

use crate::check::find_positions;
use crate::closure::lead_by_closure;
use crate::layering::Layering;
use crate::notes::NOTES;
use crate::search::find_layers;
use graph_gates::graph::GateGraph;
use words_layout::fill::fill_words;
use words_layout::limits::MAX_GATES;

// The mark of no gate: firsts are words, as an Option of a word takes twice the room on the stack.
const NONE: usize = 65535;

// The first gate that had this key, which is gate k, if none had it before.
fn first_of(key: usize, k: usize, firsts: &mut [u16; MAX_GATES]) -> usize
    requires { (key < max_gates) × (k < max_gates) }
    ensures { FirstOf key k firsts.old firsts.new result }
{
    let first = firsts[key] as usize;
    if first != NONE {
        return first;
    }
    firsts[key] = k as u16;
    k
}

// Each gate gets the first gate whose layer has the same last position.
fn lead_layers(layering: &Layering, firsts: &mut [u16; MAX_GATES], leaders: &mut [u16; MAX_GATES])
    requires { IsCertified layering.now }
    ensures { Leads (network_of layering.now.graph) layering.now.graph.gates leaders.new }
{
    fill_words(firsts, layering.graph.gates, NONE as u16);
    for k in 0..layering.graph.gates {
        let key = layering.last_of(layering.positions[k] as usize);
        leaders[k] = first_of(key, k, firsts) as u16;
    }
}

// Are the layers certified to be the strongly connected components?
fn is_certified(layering: &Layering) -> bool
    ensures { result ≡ true → IsCertified layering.now }
{
    layering.are_layers() && layering.are_certified()
}

// Finds the leaders, with room lent for the search.
fn lead_with(
    graph: GateGraph,
    stack: &mut [u16; MAX_GATES],
    notes: &mut [u16; NOTES],
    order: &mut [u16; MAX_GATES],
    ends: &mut [u16; MAX_GATES],
    firsts: &mut [u16; MAX_GATES],
    leaders: &mut [u16; MAX_GATES],
)
    ensures { Leads (network_of graph.entry) graph.entry.gates leaders.new }
{
    find_layers(graph, stack, notes, order, ends);
    // The search is over, so its stack is room for the positions.
    find_positions(graph.gates, order, stack);
    let layering = Layering {
        graph,
        order,
        ends,
        positions: stack,
        notes,
    };
    if is_certified(&layering) {
        lead_layers(&layering, firsts, leaders);
        return;
    }
    lead_by_closure(graph, leaders);
}

// Writes each gate's leader, the lowest gate of its strongly connected component.
pub fn lead(graph: GateGraph, leaders: &mut [u16; MAX_GATES])
    ensures { Leads (network_of graph.entry) graph.entry.gates leaders.new }
{
    let mut notes = [0u16; NOTES];
    let mut stack = [0u16; MAX_GATES];
    let mut order = [0u16; MAX_GATES];
    let mut ends = [0u16; MAX_GATES];
    let mut firsts = [0u16; MAX_GATES];
    lead_with(
        graph,
        &mut stack,
        &mut notes,
        &mut order,
        &mut ends,
        &mut firsts,
        leaders,
    );
}
