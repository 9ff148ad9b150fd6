// How many lanes a batch has, and how many and which of them a word marks.
ghost use Rattle.std.specs.Prelude.{◌≡◌};
ghost use Rattle.prelude.specs.Lists.{count_below, least, IfBelow};
ghost use Rattle.lanes_dual_rail.specs.Batches.{lanes_of};
ghost use Rattle.lanes_dual_rail.specs.Words.{has_lane};

use crate::inputs::LOW_INPUTS;

// The lanes of a word.
const LANES: usize = 1 << LOW_INPUTS;

// A lane for each setting, but at most 64.
pub fn lane_count(n: usize) -> usize
    ensures { result ≡ lanes_of n }
{
    1usize << n.min(LOW_INPUTS)
}

// The lowest lane that is marked.
pub fn lowest_lane(word: u64) -> Option<usize>
    ensures { IfBelow (least (has_lane word) 64) 64 result }
{
    let lane = word.trailing_zeros() as usize;
    (lane < LANES).then_some(lane)
}

// How many lanes are marked.
pub fn count_lanes(word: u64) -> usize
    ensures { result ≡ count_below (has_lane word) 64 }
{
    u64::count_ones(word) as usize
}
