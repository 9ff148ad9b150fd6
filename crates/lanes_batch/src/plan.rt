// The plan that every walk over a block's settings goes by, made once: the block's graph, and its gates in layers.
ghost use Rattle.std.specs.Prelude.{◌≡◌, replicate};
ghost use Rattle.netlist.specs.Limits.{max_gates};
ghost use Rattle.graph_gates.specs.Graph.{graph_size};
ghost use Rattle.lanes_batch.specs.Layered.{PlanRoom};
ghost use Rattle.lanes_batch.specs.Plan.{IsPlan};
ghost use Rattle.std.proofs.Props.{props};
ghost use Rattle.graph_scc.proofs.Propositions.{Layers-prop};

use graph_gates::graph::GateGraph;
use graph_gates::{GRAPH_WORDS, decode_gates};
use graph_scc::layers::layer_gates;
use words_layout::block::Block;
use words_layout::limits::MAX_GATES;
use words_layout::offsets::gates_of;

// A block's graph, its gates in the order of evaluation, and where the layer of each position ends.
#[derive(Clone, Copy)]
pub struct Plan {
    pub graph: [u16; GRAPH_WORDS],
    pub order: [u16; MAX_GATES],
    pub ends: [u16; MAX_GATES],
}

// A block with its plan.
#[derive(Clone, Copy)]
pub struct PlannedBlock<'a> {
    pub words: &'a [u16],
    pub plan: &'a Plan,
    ghost planned: { IsPlan words.now plan.now } by { Prim.hlevel (props, Layers-prop) },
}

// Room for a plan: zeros.
pub fn blank_plan() -> Plan
    ensures room { PlanRoom result.graph result.order result.ends }
    ensures blank { (result.graph ≡ replicate graph_size 0) × (result.order ≡ replicate max_gates 0)
        × (result.ends ≡ replicate max_gates 0) }
{
    Plan {
        graph: [0; GRAPH_WORDS],
        order: [0; MAX_GATES],
        ends: [0; MAX_GATES],
    }
}

// Makes the plan of a block.
pub fn plan_block(block: &Block, plan: &mut Plan)
    ensures { IsPlan block.now.words.now plan.new }
{
    decode_gates(block, &mut plan.graph);
    let graph = GateGraph {
        words: &plan.graph,
        gates: gates_of(block.words),
    };
    layer_gates(graph, &mut plan.order, &mut plan.ends);
}
