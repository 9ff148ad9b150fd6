// The plan of a block, and its groups one after the other.
ghost use Rattle.std.specs.Prelude.{get_or};
ghost use Rattle.netlist.specs.StoredBlock.{decode};
ghost use Rattle.graph_gates.specs.Graph.{Decoded};
ghost use Rattle.lanes_batch.specs.Plan.{IsPlan};
ghost use Rattle.op_render.specs.Steps.{Listed};

use graph_gates::GRAPH_WORDS;
use graph_gates::graph::GateGraph;
use lanes_batch::plan::{Plan, plan_block};
use op_groups::numbering::number_groups;
use unroll_order::list_groups;
use words_layout::block::Block;
use words_layout::limits::MAX_GATES;
use words_layout::offsets::gates_of;

// Lists the groups of a planned block one after the other, with room lent for each gate's group number; gives how many
// groups there are.
fn list_numbered(
    words: &[u16],
    graph: &[u16; GRAPH_WORDS],
    numbers: &mut [u16; MAX_GATES],
    members: &mut [u16; MAX_GATES],
    starts: &mut [u16; MAX_GATES + 1],
) -> usize
    requires { Decoded (decode words.now) (get_or words.now 1 0) graph.now }
    ensures { Listed (decode words.now) result members.new starts.new }
{
    let decoded = GateGraph {
        words: graph,
        gates: gates_of(words),
    };
    let count = number_groups(decoded, numbers);
    list_groups(decoded.gates, numbers, count, members, starts);
    count
}

// Makes the block's plan, and lists its groups one after the other; gives how many groups there are.
pub fn list_block(
    block: &Block,
    plan: &mut Plan,
    members: &mut [u16; MAX_GATES],
    starts: &mut [u16; MAX_GATES + 1],
) -> usize
    ensures planned { IsPlan block.now.words.now plan.new }
    ensures listed { Listed (decode block.now.words.now) result members.new starts.new }
{
    let mut numbers = [0u16; MAX_GATES];
    plan_block(block, plan);
    list_numbered(block.words, &plan.graph, &mut numbers, members, starts)
}
