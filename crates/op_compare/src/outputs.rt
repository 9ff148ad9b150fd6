// Where the outputs of two blocks differ in a batch of settings, from the pairs of each block.
ghost use Rattle.std.specs.Prelude.{◌≡◌, ◌<◌};
ghost use Rattle.prelude.specs.Lists.{least};
ghost use Rattle.op_compare.specs.Ready.{BlockPair};

use lanes_settings::outputs::{any_lanes, lowest_output};
use lanes_settings::settled::JudgedBatch;
use words_layout::offsets::outputs_of;

// The same batch of two blocks.
#[derive(Clone, Copy)]
pub struct Compared<'a> {
    pub ours: JudgedBatch<'a>,
    pub theirs: JudgedBatch<'a>,
    ghost pair: { BlockPair ours.words.now theirs.words.now },
    ghost same: { theirs.base ≡ ours.base },
}

impl<'a> Compared<'a> {
    ghost use Rattle.op_compare.specs.Compared.{output_total, differing_of, differing_below, differs_in};
    ghost use Rattle.op_compare.specs.Compared.{DisagreeingIn};

    // The lanes at which output `o` shows another value in theirs.
    fn differing_lanes(&self, o: usize) -> u64
        requires { o < output_total self.now }
        ensures { result ≡ differing_of self.now o }
    {
        let shown = self.ours.output_pair(o);
        let other = self.theirs.output_pair(o);
        shown.difference(other)
    }

    // The lanes at which some output shows another value in theirs.
    fn any_differing(&self) -> u64
        ensures { result ≡ differing_below self.now (output_total self.now) }
    {
        any_lanes(outputs_of(self.ours.words), |o| self.differing_lanes(o))
    }

    // The lanes at which the blocks disagree.
    pub fn disagreeing_lanes(&self) -> u64
        ensures { DisagreeingIn self.now result }
    {
        self.ours.counted_lanes() & self.any_differing()
    }

    // The lowest output that shows another value in theirs at a lane, or the number of outputs.
    pub fn lowest_differing(&self, lane: usize) -> usize
        requires { lane < 64 }
        ensures { result ≡ least (differs_in self.now lane) (output_total self.now) }
    {
        lowest_output(
            outputs_of(self.ours.words),
            lane,
            |o| self.differing_lanes(o),
        )
    }
}
