// A batch of a block's settings, decided by the block's plan (crates/lanes_batch).
ghost use Rattle.std.specs.Prelude.{◌≡◌, ◌%◌, get_or};
ghost use Rattle.lanes_batch.specs.Layered.{StraightPlanned};
ghost use Rattle.lanes_settings.specs.Lanes.{Judged};

use graph_gates::GRAPH_WORDS;
use graph_gates::graph::GateGraph;
use lanes_batch::layered::{decide_batch, decide_straight};
use lanes_batch::plan::PlannedBlock;
use lanes_dual_rail::LANE_WORDS;
use words_layout::offsets::{gates_of, inputs_of};

// Finds the settled values of the batch at `base` of a planned block.
pub fn judge_batch(block: PlannedBlock, base: usize, lanes: &mut [u64; LANE_WORDS])
    requires { base % 64 ≡ 0 }
    ensures { Judged block.entry.words.now (get_or block.entry.words.now 0 0) base lanes.new }
{
    let m = gates_of(block.words);
    let n = inputs_of(block.words);
    decide_batch(block.plan, m, n, base, lanes);
}

// Finds the settled values of the batch at `base` of a straight block, from its graph alone. One function with
// `judge_batch` would be no plainer: each is one call, and what they ask of the plan differs.
pub fn judge_straight(
    words: &[u16],
    graph: &[u16; GRAPH_WORDS],
    base: usize,
    lanes: &mut [u64; LANE_WORDS],
)
    requires { StraightPlanned words.now graph.now × (base % 64 ≡ 0) }
    ensures { Judged words.now (get_or words.now 0 0) base lanes.new }
{
    let decoded = GateGraph {
        words: graph,
        gates: gates_of(words),
    };
    let n = inputs_of(words);
    decide_straight(decoded, n, base, lanes);
}
