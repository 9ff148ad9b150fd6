// The search for the lowest setting under which two blocks disagree, a batch of up to 64 at a time. Ours is decided by
// its plan in `lanes`, theirs, which is straight, gate by gate in `others`.
ghost use Rattle.std.specs.Prelude.{◌≡◌};
ghost use Rattle.netlist.specs.StoredBlock.{decode};
ghost use Rattle.netlist.specs.Answers.{answer_of};
ghost use Rattle.netlist.specs.Compare.{compare_blocks};
ghost use Rattle.op_compare.specs.Ready.{BlockPair, CompareReady};

use crate::outputs::Compared;
use graph_gates::{GRAPH_WORDS, decode_gates};
use lanes_batch::plan::{Plan, PlannedBlock, plan_block};
use lanes_dual_rail::LANE_WORDS;
use lanes_dual_rail::words::{lane_count, lowest_lane};
use lanes_settings::decided::{judge_batch, judge_straight};
use lanes_settings::setting_count;
use lanes_settings::settled::JudgedBatch;
use netlist::{Answer, Done};
use words_layout::block::Block;
use words_layout::offsets::inputs_of;

// Goes over the batches in ascending order, up to the first disagreement: its lowest lane, and there the lowest output.
// It stays a function of its own when it is compiled: within the one that makes the arrays, a straight block's gates took
// a third longer.
#[inline(never)]
fn search_settings<'a>(
    ours: PlannedBlock<'a>,
    theirs: &'a [u16],
    their_graph: &[u16; GRAPH_WORDS],
    lanes: &mut [u64; LANE_WORDS],
    others: &mut [u64; LANE_WORDS],
) -> Answer
    requires { CompareReady ours.words.now theirs.now their_graph.now }
    ensures { result ≡ answer_of (compare_blocks (decode ours.entry.words.now) (decode theirs.now)) }
{
    let n = inputs_of(ours.words);
    let count = setting_count(n);
    let batch = lane_count(n);
    let mut base = 0;
    // A range with step_by would need the same measure, and be no plainer.
    while base < count {
        judge_batch(ours, base, lanes);
        judge_straight(theirs, their_graph, base, others);
        let words = ours.words;
        let compared = Compared {
            ours: JudgedBatch { words, base, lanes },
            theirs: JudgedBatch {
                words: theirs,
                base,
                lanes: others,
            },
        };
        if let Some(lane) = lowest_lane(compared.disagreeing_lanes()) {
            let o = compared.lowest_differing(lane);
            return Ok(Done {
                count: o + 1,
                detail: base + lane,
            });
        }
        base += batch;
    }
    Ok(Done {
        count: 0,
        detail: 0,
    })
}

// The search over all settings, with room lent for a plan of ours, a graph of theirs, and two words a place of each.
pub fn compare_with(
    ours: &Block,
    theirs: &Block,
    plan: &mut Plan,
    their_graph: &mut [u16; GRAPH_WORDS],
    lanes: &mut [u64; LANE_WORDS],
    others: &mut [u64; LANE_WORDS],
) -> Answer
    requires { BlockPair ours.now.words.now theirs.now.words.now }
    ensures { result ≡ answer_of (compare_blocks (decode ours.now.words.now) (decode theirs.now.words.now)) }
{
    plan_block(ours, plan);
    decode_gates(theirs, their_graph);
    let planned = PlannedBlock {
        words: ours.words,
        plan,
    };
    search_settings(planned, theirs.words, their_graph, lanes, others)
}
