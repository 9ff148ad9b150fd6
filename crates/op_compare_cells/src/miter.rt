// A miter of a block and of cells, at the lanes of a batch: where an output and the node listed for it show other
// values.
ghost use Rattle.std.specs.Prelude.{◌≡◌, ◌<◌};
ghost use Rattle.prelude.specs.Lists.{least};
ghost use Rattle.op_compare_cells.specs.Words.{ListReady};

use crate::choice::choose;
use graph_gates::{PLACES, place_of};
use lanes_dual_rail::inputs::used_lanes;
use lanes_settings::outputs::{any_lanes, lowest_output};
use lanes_settings::settled::JudgedBatch;
use words_layout::offsets::{inputs_of, outputs_of};

// A batch of the block, the node listed for each output, and a word for each place of the cells in that batch.
#[derive(Clone, Copy)]
pub struct Miter<'a> {
    pub batch: JudgedBatch<'a>,
    pub shown: &'a [u16],
    pub nodes: &'a [u64; PLACES],
    ghost listed: { ListReady batch.words.now shown.now },
}

impl<'a> Miter<'a> {
    ghost use Rattle.op_compare_cells.specs.Miter.{output_total, shown_of, differing_of, differing_below};
    ghost use Rattle.op_compare_cells.specs.Miter.{differs_in, MarksIn};

    // The word of the node listed for output `o`.
    fn shown_word(&self, o: usize) -> u64
        requires { o < output_total self.now }
        ensures { result ≡ shown_of self.now o }
    {
        self.nodes[place_of(self.shown[o] as usize, inputs_of(self.batch.words))]
    }

    // The lanes at which output `o` shows another value: where the node is 1 the output has to be 1, and elsewhere 0.
    fn differing_lanes(&self, o: usize) -> u64
        requires { o < output_total self.now }
        ensures { result ≡ differing_of self.now o }
    {
        let used = used_lanes(inputs_of(self.batch.words));
        let pair = self.batch.output_pair(o);
        used ^ choose(pair.zeros, pair.ones, self.shown_word(o))
    }

    // The lanes at which some output shows another value than its listed node.
    fn any_differing(&self) -> u64
        ensures { result ≡ differing_below self.now (output_total self.now) }
    {
        any_lanes(outputs_of(self.batch.words), |o| self.differing_lanes(o))
    }

    // The lowest output that shows another value at a lane, or the number of outputs.
    pub fn lowest_differing(&self, lane: usize) -> usize
        requires { lane < 64 }
        ensures { result ≡ least (differs_in self.now lane) (output_total self.now) }
    {
        lowest_output(
            outputs_of(self.batch.words),
            lane,
            |o| self.differing_lanes(o),
        )
    }

    // The lanes at which the setting counts and some output differs.
    pub fn disagreeing_lanes(&self) -> u64
        ensures { MarksIn self.now result }
    {
        self.batch.counted_lanes() & self.any_differing()
    }
}
