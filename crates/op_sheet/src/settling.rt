// Up to 64 records of a block settled side by side. What the block needs for it is made once for them. That the lanes
// are fresh is asked of those that are lent to be written: settled, they are fresh no more.
ghost use Rattle.std.specs.Prelude.{◌≡◌, true, get_or};
ghost use Rattle.netlist.specs.StoredBlock.{decode};
ghost use Rattle.netlist.specs.Rendering.{is_straight};
ghost use Rattle.lanes_batch.specs.Layered.{LanesFresh, LanesFixed};
ghost use Rattle.op_sheet.specs.Masks.{MasksSettled};

use crate::inputs::start_records;
use crate::outputs::{SHOWN_WORDS, put_outputs};
use crate::records::Masks;
use graph_gates::graph::GateGraph;
use graph_gates::{GRAPH_WORDS, decode_gates};
use lanes_batch::layered::{settle_layers, settle_straight};
use lanes_batch::plan::{blank_plan, plan_block};
use lanes_dual_rail::LANE_WORDS;
use lanes_dual_rail::inputs::LOW_INPUTS;
use words_block::check_straight;
use words_layout::block::Block;
use words_layout::offsets::{gates_of, inputs_of};

// Settles the lanes of a block that may have loops.
fn settle_looped(block: &Block, lanes: &mut [u64; LANE_WORDS])
    requires { LanesFresh (get_or block.now.words.now 1 0) 6 lanes.old }
    ensures { LanesFixed (decode block.now.words.now) 6 lanes.old lanes.new }
{
    let mut plan = blank_plan();
    plan_block(block, &mut plan);
    settle_layers(&plan, gates_of(block.words), LOW_INPUTS, lanes);
}

// Settles the lanes of a straight block in one sweep.
fn settle_ordered(block: &Block, lanes: &mut [u64; LANE_WORDS])
    requires straight { is_straight (decode block.now.words.now) ≡ true }
    requires fresh { LanesFresh (get_or block.now.words.now 1 0) 6 lanes.old }
    ensures { LanesFixed (decode block.now.words.now) 6 lanes.old lanes.new }
{
    let mut graph = [0u16; GRAPH_WORDS];
    decode_gates(block, &mut graph);
    let decoded = GateGraph {
        words: &graph,
        gates: gates_of(block.words),
    };
    settle_straight(decoded, lanes);
}

// Settles the lanes of a block; in a straight block one sweep does it.
fn settle_lanes(block: &Block, lanes: &mut [u64; LANE_WORDS])
    requires { LanesFresh (get_or block.now.words.now 1 0) 6 lanes.old }
    ensures { LanesFixed (decode block.now.words.now) 6 lanes.old lanes.new }
{
    match check_straight(block) {
        Ok(()) => settle_ordered(block, lanes),
        Err(_) => settle_looped(block, lanes),
    }
}

// Settles the records, and stores what the outputs show at each lane.
pub fn settle_records(block: &Block, masks: &Masks, shown: &mut [u64; SHOWN_WORDS])
    ensures { MasksSettled block.now.words.now masks.now shown.new }
{
    let mut lanes = [0u64; LANE_WORDS];
    start_records(
        gates_of(block.words),
        inputs_of(block.words),
        masks,
        &mut lanes,
    );
    settle_lanes(block, &mut lanes);
    put_outputs(block, &lanes, shown);
}
