// The one walk over batches: each batch is decided once, the passes of its groups are counted, and its lowest setting
// that may come and is not settled is looked for while none is known. Group g of a block's `count` groups is
// `members[starts[g]..starts[g + 1]]`, and `passes[g]` has its passes so far.
ghost use Rattle.std.specs.Prelude.{◌≡◌, true, ◌+◌, ◌≤◌, ◌<◌, length, get_or};
ghost use Rattle.netlist.specs.Limits.{max_gates, max_copies};
ghost use Rattle.netlist.specs.StoredBlock.{decode};
ghost use Rattle.netlist.specs.Rounds.{setting_count, lowest_unsettled};
ghost use Rattle.netlist.specs.Groups.{groups};
ghost use Rattle.lanes_dual_rail.specs.Batches.{lanes_of};
ghost use Rattle.lanes_dual_rail.specs.LaneWords.{lane_size};
ghost use Rattle.unroll_depth.specs.Passes.{Listing};
ghost use Rattle.unroll_depth.specs.Counting.{StartsFew, Full, GroupAt, GroupDone, BatchReady, LowestBelow};
ghost use Rattle.unroll_depth.specs.Counting.{WalkReady};
ghost use Rattle.unroll_depth.specs.Counting.{WalkedBatch, WalkedAll, Walked};

use crate::Found;
use crate::group::count_group;
use crate::passes::{Counted, Turn};
use graph_gates::GRAPH_WORDS;
use lanes_batch::plan::PlannedBlock;
use lanes_dual_rail::LANE_WORDS;
use lanes_dual_rail::words::{lane_count, lowest_lane};
use lanes_settings::decided::judge_batch;
use lanes_settings::lowest::lowest_unsettled;
use lanes_settings::setting_count;
use lanes_settings::settled::JudgedBatch;
use words_layout::fill::fill_words;
use words_layout::limits::MAX_GATES;
use words_layout::offsets::{gates_of, inputs_of};

// Group number `group`, for the settings of the batch at `base`, when the copies of all groups are `total`.
#[derive(Drop)]
struct At {
    group: usize,
    base: usize,
    total: usize,
}

// The batch at `base` of a block of so many groups, and what was found in those before it.
#[derive(Drop)]
struct Batch {
    groups: usize,
    base: usize,
    found: Found,
}

// Counts the passes of one group for the settings of the batch; gives the copies of all groups. A group that has as
// many passes as gates needs no more, whatever the setting.
fn count_at(
    words: &[u16],
    graph: &[u16; GRAPH_WORDS],
    members: &[u16; MAX_GATES],
    starts: &[u16; MAX_GATES + 1],
    at: At,
    passes: &mut [u16; MAX_GATES],
    lanes: &mut [u64; LANE_WORDS],
    kept: &mut [u64; LANE_WORDS],
) -> usize
    requires { GroupAt words.now graph.now members.now starts.now at passes.old lanes.old }
    ensures { GroupDone words.now at passes.old lanes.old passes.new
        lanes.new kept.new result }
{
    let g = at.group;
    let from = starts[g] as usize;
    let end = starts[g + 1] as usize;
    let made = passes[g] as usize;
    if end <= from + made {
        return at.total;
    }
    // Both are of `at` and of what the arrays say of its group, so that no `From` makes them.
    let turn = Turn {
        from,
        end,
        base: at.base,
    };
    let so_far = Counted {
        passes: made,
        total: at.total,
    };
    let counted = count_group(words, graph, members, turn, so_far, lanes, kept);
    passes[g] = counted.passes as u16;
    counted.total
}

// The lowest setting found so far that may come and is not settled, or 2^n: `lowest` is that of the batches before this
// one.
fn lowest_with(batch: &JudgedBatch, lowest: usize) -> usize
    requires lowest { LowestBelow (decode batch.now.words.now) batch.now.base lowest }
    requires words_bound { batch.now.base + lanes_of (get_or batch.now.words.now 0 0)
        ≤ setting_count (decode batch.now.words.now) }
    ensures { LowestBelow (decode batch.now.words.now)
        (batch.now.base + lanes_of (get_or batch.now.words.now 0 0)) result }
{
    if lowest < setting_count(inputs_of(batch.words)) {
        return lowest;
    }
    match lowest_lane(batch.unsound_lanes()) {
        Some(lane) => batch.base + lane,
        None => lowest,
    }
}

// Counts the passes of every group for the settings of a batch, whose settled values `lanes` holds, and looks for its
// lowest setting that is not settled.
fn count_batch(
    words: &[u16],
    graph: &[u16; GRAPH_WORDS],
    members: &[u16; MAX_GATES],
    starts: &[u16; MAX_GATES + 1],
    batch: Batch,
    passes: &mut [u16; MAX_GATES],
    lanes: &mut [u64; LANE_WORDS],
    kept: &mut [u64; LANE_WORDS],
) -> Found
    requires { BatchReady words.now graph.now members.now starts.now batch passes.old lanes.old }
    ensures walked_batch { WalkedBatch (decode words.now) batch.groups
        (batch.base + lanes_of (get_or words.now 0 0)) passes.old
        passes.new result }
    ensures lanes_len { (length lanes.new ≡ lane_size) × (length kept.new ≡ lane_size) }
{
    let base = batch.base;
    let judged = JudgedBatch { words, base, lanes };
    let lowest = lowest_with(&judged, batch.found.lowest);
    let mut total = batch.found.total;
    // A range would need a second way out in the body.
    let mut group = 0;
    while group < batch.groups && total <= MAX_GATES {
        let at = At { group, base, total };
        total = count_at(words, graph, members, starts, at, passes, lanes, kept);
        group += 1;
    }
    Found { total, lowest }
}

// Has every group as many passes as gates?
fn are_full(count: usize, starts: &[u16; MAX_GATES + 1], passes: &[u16; MAX_GATES]) -> bool
    requires { (count ≤ max_gates) × StartsFew count starts.now }
    ensures { result ≡ true → Full count starts.now passes.now }
{
    (0..count).all(|g| starts[g + 1] as usize <= starts[g] as usize + passes[g] as usize)
}

// Goes through every batch in turn, from one pass for each group on. The walk ends where there are too many copies, and
// where an unsettled setting is known and no group can need more passes.
fn walk_loops(
    block: PlannedBlock,
    count: usize,
    members: &[u16; MAX_GATES],
    starts: &[u16; MAX_GATES + 1],
    passes: &mut [u16; MAX_GATES],
) -> Found
    requires { WalkReady block.words.now count members.now starts.now passes.old }
    ensures { WalkedAll (decode block.entry.words.now) count passes.old passes.new result }
{
    let words = block.words;
    let mut lanes = [0u64; LANE_WORDS];
    let mut kept = [0u64; LANE_WORDS];
    let n = inputs_of(words);
    let settings = setting_count(n);
    let step = lane_count(n);
    let mut found = Found {
        total: gates_of(words),
        lowest: settings,
    };
    // A range would need a second way out in the body.
    let mut base = 0;
    while base < settings && found.total <= MAX_GATES {
        if found.lowest < settings && are_full(count, starts, passes) {
            return found;
        }
        judge_batch(block, base, &mut lanes);
        let batch = Batch {
            groups: count,
            base,
            found,
        };
        found = count_batch(
            words,
            &block.plan.graph,
            members,
            starts,
            batch,
            passes,
            &mut lanes,
            &mut kept,
        );
        base += step;
    }
    found
}

// The walk of a block in which no group can need more passes than one: it only looks for a setting that is not settled.
fn walk_settings(block: PlannedBlock) -> Found
    ensures { (result.total ≡ get_or block.entry.words.now 1 0)
        × (result.lowest ≡ lowest_unsettled (decode block.entry.words.now)) }
{
    let mut lanes = [0u64; LANE_WORDS];
    let lowest = lowest_unsettled(block, &mut lanes);
    Found {
        total: gates_of(block.words),
        lowest,
    }
}

// Writes each group's passes; gives the copies of all groups, or a number above the limit where they are too many, and
// where they are not, the lowest setting that may come and is not settled.
pub fn walk_batches(
    block: PlannedBlock,
    count: usize,
    members: &[u16; MAX_GATES],
    starts: &[u16; MAX_GATES + 1],
    passes: &mut [u16; MAX_GATES],
) -> Found
    requires { Listing (decode block.words.now) count members.now starts.now }
    ensures { Walked (decode block.entry.words.now) passes.old passes.new result }
{
    fill_words(passes, count, 1);
    if are_full(count, starts, passes) {
        return walk_settings(block);
    }
    walk_loops(block, count, members, starts, passes)
}
