// The settings of a batch that never come (SPECIFICATION 4.2): those that agree with a never line. The batch starts at
// setting number `base`.
ghost use Rattle.std.specs.Prelude.{◌≡◌, ◌%◌, ◌≤◌, ◌<◌, get_or};
ghost use Rattle.netlist.specs.Limits.{max_inputs};
ghost use Rattle.netlist.specs.Assignments.{agrees};
ghost use Rattle.netlist.specs.StoredBlock.{never_at, decode};
ghost use Rattle.netlist.specs.Rounds.{is_excluded};
ghost use Rattle.words_layout.specs.Bounds.{count_room};
ghost use Rattle.lanes_dual_rail.specs.Batches.{lanes_of};
ghost use Rattle.lanes_dual_rail.specs.Words.{Tells};
ghost use Rattle.lanes_settings.specs.Nevers.{agrees_at, may_come, BatchOf};

use lanes_dual_rail::inputs::{input_pair, used_lanes};
use words_layout::offsets::{NEVER_SIZE, inputs_of, nevers_at, nevers_of};
use words_layout::read::word_at;

// The lanes at which input `i` has an assignment's value; all lanes where the assignment does not fix it.
fn agreeing_at(n: usize, base: usize, fixed: usize, values: usize, i: usize) -> u64
    requires { (i < 64) × (base % 64 ≡ 0) }
    ensures { Tells (lanes_of n) base (agrees_at (record { fixed = fixed; ones = values }) i) result }
{
    if (fixed >> i) % 2 != 1 {
        return used_lanes(n);
    }
    let pair = input_pair(n, base, i);
    if (values >> i) % 2 == 1 {
        pair.ones
    } else {
        pair.zeros
    }
}

// The lanes at which every input that the assignment fixes has its value.
fn agreeing_lanes(n: usize, base: usize, fixed: usize, values: usize) -> u64
    requires { (n ≤ max_inputs) × (base % 64 ≡ 0) }
    ensures { Tells (lanes_of n) base (agrees n (record { fixed = fixed; ones = values })) result }
{
    let mut agreeing = used_lanes(n);
    for i in 0..n {
        agreeing &= agreeing_at(n, base, fixed, values, i);
    }
    agreeing
}

// The lanes that agree with the never line whose two masks stand at `at`. That the words are a block's and a
// batch starts at `base` is asked of three functions: a value of both would be made for each call of `coming_lanes` alone.
fn line_lanes(words: &[u16], base: usize, at: usize) -> u64
    requires { BatchOf words.now base × (at < count_room) }
    ensures { Tells (lanes_of (get_or words.now 0 0)) base
        (agrees (get_or words.now 0 0) (never_at words.now at)) result }
{
    agreeing_lanes(
        inputs_of(words),
        base,
        word_at(words, at),
        word_at(words, at + 1),
    )
}

// The lanes whose setting agrees with one of the block's never lines, and so never comes.
fn excluded_lanes(words: &[u16], base: usize) -> u64
    requires { BatchOf words.now base }
    ensures { Tells (lanes_of (get_or words.now 0 0)) base (is_excluded (decode words.now)) result }
{
    let lines = nevers_of(words);
    let first = nevers_at(inputs_of(words));
    let mut excluded = 0u64;
    for i in 0..lines {
        excluded |= line_lanes(words, base, first + NEVER_SIZE * i);
    }
    excluded
}

// The lanes whose setting may come.
pub fn coming_lanes(words: &[u16], base: usize) -> u64
    requires { BatchOf words.now base }
    ensures { Tells (lanes_of (get_or words.now 0 0)) base (may_come (decode words.now)) result }
{
    used_lanes(inputs_of(words)) ^ excluded_lanes(words, base)
}
