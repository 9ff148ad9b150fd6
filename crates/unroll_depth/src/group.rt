// The unrolling depth of one strongly connected group under the settings of a batch, whose settled values `lanes`
// holds.
ghost use Rattle.std.specs.Prelude.{◌≡◌, length, get_or};
ghost use Rattle.prelude.specs.Lists.{repeated};
ghost use Rattle.netlist.specs.StoredBlock.{decode};
ghost use Rattle.lanes_batch.specs.Layered.{Part};
ghost use Rattle.unroll_depth.specs.Pairs.{group_of};
ghost use Rattle.unroll_depth.specs.Group.{gates_listed};
ghost use Rattle.unroll_depth.specs.Passes.{Ran, PassReady, MorePasses, GroupReady, GroupCounted};

use crate::pairs::Group;
use crate::passes::{Counted, Turn};
use graph_gates::GRAPH_WORDS;
use lanes_batch::layered::sweep_part;
use lanes_dual_rail::LANE_WORDS;
use words_layout::limits::MAX_GATES;

// Makes so many passes over a group: evaluates its gates one after the other, and stores each pair at once.
fn run_passes(
    graph: &[u16; GRAPH_WORDS],
    group: &Group,
    passes: usize,
    lanes: &mut [u64; LANE_WORDS],
)
    requires { Part graph.now group.now.members.now group.now.turn.from group.now.turn.end }
    ensures { Ran graph.now (repeated passes (gates_listed group.now)) lanes.old
        lanes.new }
{
    let from = group.turn.from;
    let end = group.turn.end;
    for p in 0..passes {
        sweep_part(graph, group.members, from, end, false, lanes);
    }
}

// Makes further passes until every gate of the group has its settled pair, which `kept` holds, at each lane that may
// come, or the copies are too many.
fn more_passes(
    words: &[u16],
    graph: &[u16; GRAPH_WORDS],
    group: &Group,
    counted: Counted,
    lanes: &mut [u64; LANE_WORDS],
    kept: &[u64; LANE_WORDS],
) -> Counted
    requires { PassReady words.now graph.now group.now.members.now group.now.turn counted lanes.old kept.now }
    ensures { MorePasses (decode words.now) (get_or words.now 0 0) group.now.turn.base
        (gates_listed group.now) counted
        lanes.old lanes.new result }
{
    let turn = group.turn;
    let size = turn.end - turn.from;
    let mut passes = counted.passes;
    let mut total = counted.total;
    // It ends on a test of the lanes, and counts no range.
    while total <= MAX_GATES && group.lacks(words, lanes, kept) {
        sweep_part(graph, group.members, turn.from, turn.end, false, lanes);
        passes += 1;
        total += size;
    }
    Counted { passes, total }
}

// The passes that the group needs when earlier settings need `counted.passes`, and the copies of all groups when they
// were `counted.total`. `lanes` holds the settled values, and does so again at the end; `kept` has the group's in
// between.
pub fn count_group(
    words: &[u16],
    graph: &[u16; GRAPH_WORDS],
    members: &[u16; MAX_GATES],
    turn: Turn,
    counted: Counted,
    lanes: &mut [u64; LANE_WORDS],
    kept: &mut [u64; LANE_WORDS],
) -> Counted
    requires { GroupReady words.now graph.now members.now turn counted lanes.old }
    ensures counted { GroupCounted (decode words.now) (get_or words.now 0 0) turn.base
        (group_of members.now turn) counted result }
    ensures kept { (lanes.new ≡ lanes.old) × (length kept.new ≡ length kept.old) }
{
    let group = Group { members, turn };
    group.put_pairs(lanes, kept);
    group.clear_pairs(lanes);
    run_passes(graph, &group, counted.passes, lanes);
    let needed = more_passes(words, graph, &group, counted, lanes, kept);
    group.put_pairs(kept, lanes);
    needed
}
