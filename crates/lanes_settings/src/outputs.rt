// What the outputs are at the lanes of a batch, from the pairs of its inputs and gates, in words whose outputs start at
// `at`, as those of a block of n inputs. They need be no block's, so that n is asked for and not read.
ghost use Rattle.std.specs.Prelude.{◌≡◌, Bool, ℕ, suc, ◌<◌};
ghost use Rattle.std.specs.Int.Bits.{bit_or};
ghost use Rattle.prelude.specs.Lists.{least};
ghost use Rattle.lanes_dual_rail.specs.Words.{has_lane};
ghost use Rattle.lanes_settings.specs.Lanes.{output_pair, undefined_word, unsettled_word, OutputThere, OutputsThere};

use graph_gates::place_of;
use lanes_dual_rail::evaluate::pair_at;
use lanes_dual_rail::inputs::used_lanes;
use lanes_dual_rail::{LANE_WORDS, Pair};
use words_layout::offsets::{NAME_SIZE, OUTPUT_SIZE};
use words_layout::read::word_at;

// The pair of output `o`.
pub fn output_pair(words: &[u16], at: usize, n: usize, o: usize, lanes: &[u64; LANE_WORDS]) -> Pair
    requires { OutputThere words.now at n o }
    ensures { result ≡ output_pair words.now at n lanes.now o }
{
    let node = word_at(words, at + OUTPUT_SIZE * o + NAME_SIZE);
    pair_at(lanes, place_of(node, n))
}

// The lanes at which output `o` is undefined.
pub fn undefined_lanes(
    words: &[u16],
    at: usize,
    n: usize,
    o: usize,
    lanes: &[u64; LANE_WORDS],
) -> u64
    requires { OutputThere words.now at n o }
    ensures { result ≡ undefined_word words.now at n lanes.now o }
{
    let pair = output_pair(words, at, n, o, lanes);
    used_lanes(n) ^ (pair.zeros | pair.ones)
}

// The lanes marked in the word of one of the first `count` outputs. A caller gives its own definition of them as
// `below`.
pub fn any_lanes<F: Fn(usize) -> u64>(count: usize, word: F) -> u64
    requires callable { (o : ℕ) → o < count → F.pre word o }
    ensures { (below : ℕ → ℕ) → below 0 ≡ 0
        → ((o r : ℕ) → F.post word o r → below (suc o) ≡ bit_or (below o) r)
        → result ≡ below count }
{
    let mut marked = 0u64;
    for o in 0..count {
        marked |= word(o);
    }
    marked
}

// The lowest of the first `count` outputs whose word marks a lane, or `count`, as `least` has it: who asks knows that one
// does. A caller gives its own definition of the outputs that do as `test`.
pub fn lowest_output<F: Fn(usize) -> u64>(count: usize, lane: usize, word: F) -> usize
    requires there { lane < 64 }
    requires callable { (o : ℕ) → o < count → F.pre word o }
    ensures { (test : ℕ → Bool)
        → ((o r : ℕ) → F.post word o r → has_lane r lane ≡ test o)
        → result ≡ least test count }
{
    (0..count)
        .find(|&o| (word(o) >> lane) % 2 == 1)
        .unwrap_or(count)
}

// The lanes at which one of the first `count` outputs is undefined.
pub fn unsettled_lanes(
    words: &[u16],
    at: usize,
    n: usize,
    count: usize,
    lanes: &[u64; LANE_WORDS],
) -> u64
    requires { OutputsThere words.now at n count }
    ensures { result ≡ unsettled_word words.now at n lanes.now count }
{
    any_lanes(count, |o| undefined_lanes(words, at, n, o, lanes))
}
