// The groups' numbers of a block, from its stored words.
ghost use Rattle.std.specs.Prelude.{◌≡◌, ◌≤◌, length, get_or};
ghost use Rattle.prelude.specs.Lists.{tab, placed};
ghost use Rattle.netlist.specs.Limits.{max_gates};
ghost use Rattle.netlist.specs.StoredBlock.{decode};
ghost use Rattle.op_groups.specs.Numbering.{number_at, GroupsNumbered};

use crate::numbering::number_groups;
use graph_gates::graph::GateGraph;
use graph_gates::{GRAPH_WORDS, decode_gates};
use words_layout::block::Block;
use words_layout::limits::MAX_GATES;
use words_layout::offsets::gates_of;

// Writes the first m of the numbers that were found.
fn copy_numbers(m: usize, found: &[u16; MAX_GATES], numbers: &mut [u16])
    requires { (m ≤ max_gates) × (m ≤ length numbers.old) }
    ensures { numbers.new ≡ placed (tab (number_at found.now) m) numbers.old }
{
    numbers[..m].copy_from_slice(&found[..m]);
}

// Numbers the groups of a block, with room lent for its graph and the numbers.
fn assign_with(
    block: &Block,
    graph: &mut [u16; GRAPH_WORDS],
    found: &mut [u16; MAX_GATES],
    numbers: &mut [u16],
) -> usize
    requires { get_or block.now.words.now 1 0 ≤ length numbers.old }
    ensures { GroupsNumbered (decode block.now.words.now) numbers.old numbers.new result }
{
    decode_gates(block, graph);
    let decoded = GateGraph {
        words: graph,
        gates: gates_of(block.words),
    };
    let count = number_groups(decoded, found);
    copy_numbers(decoded.gates, found, numbers);
    count
}

// Writes each gate's group number; how many groups there are.
pub fn assign(block: &Block, numbers: &mut [u16]) -> usize
    requires { get_or block.now.words.now 1 0 ≤ length numbers.old }
    ensures { GroupsNumbered (decode block.now.words.now) numbers.old numbers.new result }
{
    let mut graph = [0u16; GRAPH_WORDS];
    let mut found = [0u16; MAX_GATES];
    assign_with(block, &mut graph, &mut found, numbers)
}
