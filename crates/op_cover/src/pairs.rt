// Pairs of masks in ascending order: those whose inputs at 1 are fixed ones, 3^n of the 4^n pairs. For one first mask
// this walks its subsets in ascending order.
ghost use Rattle.std.specs.Prelude.{◌+◌, ◌*◌, ◌^◌, ◌≤◌, ◌<◌};
ghost use Rattle.netlist.specs.Limits.{max_inputs};
ghost use Rattle.theory_cover.specs.Entries.{PairBelow, NextPair};

// The second mask of the next pair with this first mask whose inputs at 1 are fixed ones, or the number of masks where
// there is none: the next subset of the fixed inputs, where a carry passes the free ones (Knuth, The Art of Computer
// Programming 4A, 7.1.3).
pub fn next_ones(n: usize, fixed: usize, ones: usize) -> usize
    requires { (n ≤ max_inputs) × (fixed < 2 ^ n) × (ones < 2 ^ n) × PairBelow n (fixed * 2 ^ n + ones) }
    ensures { (result ≤ 2 ^ n) × NextPair n (fixed * 2 ^ n + ones) (fixed * 2 ^ n + result) }
{
    let count = 1usize << n;
    if ones == fixed {
        return count;
    }
    (ones + count - fixed) & fixed
}
