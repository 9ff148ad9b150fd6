// A bit set of gates, 64 to a word: Kahn's algorithm keeps the leaders of the ready groups in one.
ghost use Rattle.std.specs.Prelude.{◌≡◌, true, ◌*◌, ◌<◌, length};
ghost use Rattle.prelude.specs.Lists.{least, IfBelow};
ghost use Rattle.op_groups.specs.Ready.{word_bits, in_set, Added, Removed};

use lanes_dual_rail::words::lowest_lane;
use words_layout::limits::MAX_GATES;

// The bits of a word of the set.
const WORD_BITS: usize = 64;

// The words that have a bit for each gate.
pub const READY_WORDS: usize = MAX_GATES / WORD_BITS;

// A set of gates; the bit of each stands in `words`.
#[derive(Drop)]
pub struct ReadySet {
    pub words: [u64; READY_WORDS],
}

impl ReadySet {
    // Adds gate l to the set.
    pub fn add(&mut self, l: usize)
        requires { l < word_bits * length self.old.words }
        ensures added { Added l self.old.words self.new.words }
        ensures room { length self.new.words ≡ length self.old.words }
    {
        self.words[l / WORD_BITS] |= 1 << (l % WORD_BITS);
    }

    // Takes gate l, which is in the set, out of it.
    pub fn remove(&mut self, l: usize)
        requires { (l < word_bits * length self.old.words) × (in_set self.old.words l ≡ true) }
        ensures removed { Removed l self.old.words self.new.words }
        ensures room { length self.new.words ≡ length self.old.words }
    {
        self.words[l / WORD_BITS] ^= 1 << (l % WORD_BITS);
    }

    // The lowest gate in the set.
    pub fn lowest(&self) -> Option<usize>
        ensures { IfBelow (least (in_set self.now.words) (word_bits * length self.now.words))
            (word_bits * length self.now.words) result }
    {
        for at in 0..READY_WORDS {
            if let Some(bit) = lowest_lane(self.words[at]) {
                return Some(WORD_BITS * at + bit);
            }
        }
        None
    }
}
