// The pair of each input for the batch of settings that starts at `base`.
ghost use Rattle.std.specs.Prelude.{◌≡◌, ◌<◌};
ghost use Rattle.lanes_dual_rail.specs.Pairs.{full};
ghost use Rattle.lanes_dual_rail.specs.Batches.{lanes_of, pattern, input_pair};

use super::Pair;

// The 64 settings of a batch differ in the six lowest inputs alone.
pub const LOW_INPUTS: usize = 6;

// The lanes at which each of the six lowest inputs is 1: bit s of entry i is bit i of s.
const PATTERNS: [u64; 6] = [
    0xaaaa_aaaa_aaaa_aaaa,
    0xcccc_cccc_cccc_cccc,
    0xf0f0_f0f0_f0f0_f0f0,
    0xff00_ff00_ff00_ff00,
    0xffff_0000_ffff_0000,
    0xffff_ffff_0000_0000,
];

// A bit at each lane in use: 64, or 2^n of them.
pub fn used_lanes(n: usize) -> u64
    ensures { result ≡ full (lanes_of n) }
{
    if LOW_INPUTS <= n {
        return u64::MAX;
    }
    let lanes = 1usize << n;
    (1u64 << lanes) - 1
}

// The lanes at which input `i` is 1, all 64 in use.
pub fn pattern_of(base: usize, i: usize) -> u64
    requires { i < 64 }
    ensures { result ≡ pattern base i }
{
    if i < LOW_INPUTS {
        return PATTERNS[i];
    }
    if (base >> i) % 2 == 1 { u64::MAX } else { 0 }
}

// The pair of input `i` in a block of n inputs.
pub fn input_pair(n: usize, base: usize, i: usize) -> Pair
    requires { i < 64 }
    ensures { result ≡ input_pair n base i }
{
    let used = used_lanes(n);
    let ones = pattern_of(base, i) & used;
    Pair {
        zeros: used ^ ones,
        ones,
    }
}
