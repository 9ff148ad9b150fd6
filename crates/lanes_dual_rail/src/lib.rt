// Sixty-four settings at a time in dual-rail words: a value under each of them is a pair of bits, and a gate's pair of
// words comes from its operands' pairs.
#![tactic(auto)]

ghost use Rattle.std.specs.Prelude.{◌≡◌};

use graph_gates::PLACES;

pub mod evaluate;
pub mod inputs;
pub mod words;

// Bit s of `zeros` marks value 0 under setting s of a batch, bit s of `ones` value 1; neither: undefined.
#[derive(Clone, Copy, PartialEq, Eq)]
pub struct Pair {
    pub zeros: u64,
    pub ones: u64,
}

impl Pair {
    ghost use Rattle.lanes_dual_rail.specs.Pairs.{difference_of};

    // The lanes at which two pairs have another value.
    #[tactic(auto, unfolding(crate::specs::Pairs::difference_of))]
    pub fn difference(self, other: Pair) -> u64
        ensures { result ≡ difference_of self other }
    {
        (self.zeros ^ other.zeros) | (self.ones ^ other.ones)
    }
}

// Two words for each place: word 2 × place + v marks the lanes of value v.
pub const LANE_WORDS: usize = 2 * PLACES;
