// How many settings that may come are settled, a batch of up to 64 at a time, by a block's plan: its graph and its
// gates in layers (crates/lanes_batch).
ghost use Rattle.std.specs.Prelude.{◌≡◌, get_or};
ghost use Rattle.prelude.specs.Lists.{count_below};
ghost use Rattle.std.specs.declared.result.Result.TheVariants.{Ok};
ghost use Rattle.netlist.specs.StoredBlock.{decode};
ghost use Rattle.netlist.specs.Rounds.{settled_settings, lowest_unsettled};
ghost use Rattle.lanes_dual_rail.specs.Batches.{lanes_of};
ghost use Rattle.lanes_settings.specs.Batches.{FirstBatch};
ghost use Rattle.op_verdict.specs.Counts.{FirstReached, BatchCounted, counted_from};

use lanes_batch::plan::PlannedBlock;
use lanes_dual_rail::LANE_WORDS;
use lanes_dual_rail::words::{count_lanes, lane_count};
use lanes_settings::decided::judge_batch;
use lanes_settings::lowest::{lowest_in, unsettled_batch};
use lanes_settings::nevers::coming_lanes;
use lanes_settings::setting_count;
use lanes_settings::settled::JudgedBatch;
use netlist::{Answer, Done};
use words_layout::block::Block;
use words_layout::offsets::inputs_of;

// How many settings of a decided batch may come and are settled.
fn count_held(batch: &JudgedBatch) -> usize
    ensures { result ≡ count_below (counted_from (decode batch.now.words.now) batch.now.base)
        (lanes_of (get_or batch.now.words.now 0 0)) }
{
    count_lanes(batch.counted_lanes())
}

// How many settings of the batch at `base` may come and are settled, when `first` is the first batch with another:
// below it none is decided, and at it `lanes` holds the settled values.
fn count_batch(
    block: PlannedBlock,
    base: usize,
    first: usize,
    lanes: &mut [u64; LANE_WORDS],
) -> usize
    requires { FirstReached block.words.now first base lanes.old }
    ensures { BatchCounted block.entry.words.now first base lanes.old lanes.new result }
{
    let words = block.words;
    if base + lane_count(inputs_of(words)) <= first {
        return count_lanes(coming_lanes(words, base));
    }
    if base == first {
        let held = JudgedBatch { words, base, lanes };
        return count_held(&held);
    }
    judge_batch(block, base, lanes);
    let batch = JudgedBatch { words, base, lanes };
    count_held(&batch)
}

// How many settings that may come are settled, when `first` is the first batch with another.
fn count_settled(block: PlannedBlock, first: usize, lanes: &mut [u64; LANE_WORDS]) -> usize
    requires { FirstBatch block.words.now first lanes.old }
    ensures { result ≡ settled_settings (decode block.entry.words.now) }
{
    let n = inputs_of(block.words);
    let count = setting_count(n);
    let batch = lane_count(n);
    let mut settled = 0;
    let mut base = 0;
    // A range with step_by would need the same measure, and be no plainer.
    while base < count {
        settled += count_batch(block, base, first, lanes);
        base += batch;
    }
    settled
}

// Verdict's two numbers: how many settings that may come are settled, and the lowest other.
pub fn search_settings(block: PlannedBlock, lanes: &mut [u64; LANE_WORDS]) -> Answer
    ensures { result ≡ Ok (record {
      count = settled_settings (decode block.entry.words.now);
      detail = lowest_unsettled (decode block.entry.words.now);
    }) }
{
    let first = unsettled_batch(block, lanes);
    let stored = Block { words: block.words };
    let lowest = lowest_in(&stored, first, lanes);
    let count = count_settled(block, first, lanes);
    Ok(Done {
        count: count,
        detail: lowest,
    })
}
