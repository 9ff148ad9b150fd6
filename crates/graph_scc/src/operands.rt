// The slots of a gate, by which it reads other gates.
ghost use Rattle.std.specs.Prelude.{◌<◌};
ghost use Rattle.graph_gates.specs.Graph.{slots};
ghost use Rattle.graph_scc.specs.Search.{SlotGate};

use graph_gates::FIRST_GATE;
use graph_gates::graph::GateGraph;

// The gate that slot `s` of gate k reads, if it reads one.
pub fn slot_gate(graph: GateGraph, k: usize, s: usize) -> Option<usize>
    requires { (k < graph.gates) × (s < slots) }
    ensures { SlotGate graph.entry.gates graph.entry.words.now k s result }
{
    graph.gate(k).place(s).checked_sub(FIRST_GATE)
}
