// What the outputs show at the lanes, two words for each output, and a record's two masks from them.
ghost use Rattle.std.specs.Prelude.{◌≡◌, cond, ◌<◌, get_or};
ghost use Rattle.netlist.specs.Values.{is_defined};
ghost use Rattle.netlist.specs.Assignments.{is_one};
ghost use Rattle.netlist.specs.Sheet.{showing};
ghost use Rattle.lanes_dual_rail.specs.Pairs.{lane};
ghost use Rattle.lanes_dual_rail.specs.LaneWords.{pair_at};
ghost use Rattle.op_sheet.specs.Records.{OutputsPut, shown_at};

use lanes_dual_rail::LANE_WORDS;
use lanes_settings::outputs::output_pair;
use netlist::Record;
use words_layout::block::Block;
use words_layout::limits::MAX_OUTPUTS;
use words_layout::offsets::{inputs_of, outputs_at, outputs_of};

// Two words for each output: word 2 × output + v marks the lanes at which it shows v.
pub const SHOWN_WORDS: usize = 2 * MAX_OUTPUTS;

// Stores the pair of each output.
pub fn put_outputs(block: &Block, lanes: &[u64; LANE_WORDS], shown: &mut [u64; SHOWN_WORDS])
    ensures { OutputsPut block.now.words.now lanes.now (get_or block.now.words.now 2 0) shown.new }
{
    let n = inputs_of(block.words);
    let at = outputs_at(block.words);
    let count = outputs_of(block.words);
    for o in 0..count {
        let pair = output_pair(block.words, at, n, o, lanes);
        shown[2 * o] = pair.zeros;
        shown[2 * o + 1] = pair.ones;
    }
}

// The bit of output o at lane s in the mask of outputs at 1.
fn one_bit(shown: &[u64; SHOWN_WORDS], o: usize, s: usize) -> u16
    requires { (o < 16) × (s < 64) }
    ensures { result ≡ cond (is_one (lane s (pair_at shown.now o))) 1 0 }
{
    if (shown[2 * o] >> s) % 2 == 1 {
        0
    } else {
        ((shown[2 * o + 1] >> s) % 2) as u16 // at lane s
    }
}

// The bit of output o at lane s in the mask of defined outputs.
fn defined_bit(shown: &[u64; SHOWN_WORDS], o: usize, s: usize) -> u16
    requires { (o < 16) × (s < 64) }
    ensures { result ≡ cond (is_defined (lane s (pair_at shown.now o))) 1 0 }
{
    if (shown[2 * o] >> s) % 2 == 1 {
        1
    } else {
        ((shown[2 * o + 1] >> s) % 2) as u16
    }
}

// The record that shows the outputs at lane s; its masks are made from the last output to the first.
pub fn show_lane(
    block: &Block,
    s: usize,
    fixed: u16,
    ones: u16,
    shown: &[u64; SHOWN_WORDS],
) -> Record
    requires { s < 64 }
    ensures { result ≡ showing fixed ones (shown_at (get_or block.now.words.now 2 0) shown.now s) }
{
    let mut defined: u16 = 0;
    let mut values: u16 = 0;
    for o in (0..outputs_of(block.words)).rev() {
        defined = 2 * defined + defined_bit(shown, o, s);
        values = 2 * values + one_bit(shown, o, s);
    }
    Record {
        fixed,
        ones,
        number: 0,
        defined,
        values,
    }
}
