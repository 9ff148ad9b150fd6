// The lowest setting that may come and is not settled, of a planned block (crates/lanes_batch). Where there is none it
// is 2^n, as the definition `lowest_unsettled` says and Verdict tells, and no `Option`.
ghost use Rattle.std.specs.Prelude.{◌≡◌};
ghost use Rattle.netlist.specs.StoredBlock.{decode};
ghost use Rattle.netlist.specs.Rounds.{lowest_unsettled};
ghost use Rattle.lanes_settings.specs.Batches.{FirstBatch};

use crate::decided::judge_batch;
use crate::nevers::coming_lanes;
use crate::outputs::undefined_lanes;
use crate::setting_count;
use crate::settled::JudgedBatch;
use lanes_batch::plan::PlannedBlock;
use lanes_dual_rail::LANE_WORDS;
use lanes_dual_rail::words::{lane_count, lowest_lane};
use words_layout::block::Block;
use words_layout::offsets::{inputs_of, outputs_at, outputs_of};

// The first batch that has a setting which may come and is not settled, or 2^n; `lanes` holds its settled values.
pub fn unsettled_batch(block: PlannedBlock, lanes: &mut [u64; LANE_WORDS]) -> usize
    ensures { FirstBatch block.entry.words.now result lanes.new }
{
    let words = block.words;
    let n = inputs_of(words);
    let count = setting_count(n);
    let batch = lane_count(n);
    let at = outputs_at(words);
    let outputs = outputs_of(words);
    let mut base = 0;
    // A `while`, and a `for` inside it: must-fail/lowest_not_left_at.edit leaves the inner one alone, and what `base` is
    // after the loops, under `step_by`, is no variable's value.
    'batches: while base < count {
        judge_batch(block, base, lanes);
        let coming = coming_lanes(words, base);
        for o in 0..outputs {
            if coming & undefined_lanes(words, at, n, o, lanes) != 0 {
                break 'batches;
            }
        }
        base += batch;
    }
    base
}

// The lowest setting that may come and has an undefined output, or 2^n, when `base` is the first batch with such a
// setting and `lanes` holds its settled values: the lowest lane at which any output is undefined.
pub fn lowest_in(block: &Block, base: usize, lanes: &[u64; LANE_WORDS]) -> usize
    requires { FirstBatch block.now.words.now base lanes.now }
    ensures { result ≡ lowest_unsettled (decode block.now.words.now) }
{
    let words = block.words;
    if base == setting_count(inputs_of(words)) {
        return base;
    }
    let batch = JudgedBatch { words, base, lanes };
    match lowest_lane(batch.unsound_lanes()) {
        Some(lane) => base + lane,
        None => base, // the first batch has such a lane
    }
}

// The lowest setting that may come and has an undefined output, or 2^n, from all batches.
pub fn lowest_unsettled(block: PlannedBlock, lanes: &mut [u64; LANE_WORDS]) -> usize
    ensures { result ≡ lowest_unsettled (decode block.entry.words.now) }
{
    let first = unsettled_batch(block, lanes);
    let stored = Block { words: block.words };
    lowest_in(&stored, first, lanes)
}
