// The inputs of up to 64 records in lanes: lane s has the setting of record s.
ghost use Rattle.std.specs.Prelude.{◌≡◌, cond, ◌≤◌, ◌<◌};
ghost use Rattle.netlist.specs.Limits.{max_inputs, max_gates};
ghost use Rattle.netlist.specs.Values.{value_of};
ghost use Rattle.netlist.specs.Assignments.{is_one};
ghost use Rattle.netlist.specs.Sheet.{input_byte};
ghost use Rattle.lanes_batch.specs.Layered.{InputsPut};
ghost use Rattle.op_sheet.specs.Records.{is_zero};
ghost use Rattle.op_sheet.specs.Masks.{pair_of, MasksStarted};

use crate::records::Masks;
use graph_gates::FIRST_INPUT;
use lanes_batch::layered::start_constants;
use lanes_dual_rail::evaluate::put_pair;
use lanes_dual_rail::inputs::LOW_INPUTS;
use lanes_dual_rail::{LANE_WORDS, Pair};

// The bit of input i among the lanes at 0: 1 where it is fixed at 0.
fn zero_bit(fixed: u16, ones: u16, i: usize) -> u64
    requires { i < max_inputs }
    ensures { result ≡ cond (is_zero (value_of (input_byte fixed ones i))) 1 0 }
{
    if (fixed >> i) % 2 == 1 {
        (1 - (ones >> i) % 2) as u64
    } else {
        0 // not fixed, and so not at 0
    }
}

// The bit of input i among the lanes at 1.
fn one_bit(fixed: u16, ones: u16, i: usize) -> u64
    requires { i < max_inputs }
    ensures { result ≡ cond (is_one (value_of (input_byte fixed ones i))) 1 0 }
{
    if (fixed >> i) % 2 == 1 {
        ((ones >> i) % 2) as u64
    } else {
        0
    }
}

// The pair of input i of the records, made from the last record to the first.
fn record_pair(masks: &Masks, i: usize) -> Pair
    requires { i < max_inputs }
    ensures { result ≡ pair_of masks.now i }
{
    let mut zeros: u64 = 0;
    let mut marked: u64 = 0;
    for s in (0..masks.count).rev() {
        let f = masks.fixed[s];
        let v = masks.ones[s];
        zeros = 2 * zeros + zero_bit(f, v, i);
        marked = 2 * marked + one_bit(f, v, i);
    }
    Pair {
        zeros,
        ones: marked,
    }
}

// Stores the pair of each of the n inputs.
fn put_records(n: usize, masks: &Masks, lanes: &mut [u64; LANE_WORDS])
    requires { n ≤ max_inputs }
    ensures { InputsPut (pair_of masks.now) n lanes.old lanes.new }
{
    for k in 0..n {
        put_pair(lanes, FIRST_INPUT + k, record_pair(masks, k));
    }
}

// Starts the lanes of the records of a block of n inputs and m gates. All 64 lanes are in use, as in a batch of
// settings of LOW_INPUTS inputs; one behind the last record has undefined inputs.
pub fn start_records(m: usize, n: usize, masks: &Masks, lanes: &mut [u64; LANE_WORDS])
    requires { (m ≤ max_gates) × (n ≤ max_inputs) }
    ensures { MasksStarted m n masks.now lanes.new }
{
    start_constants(m, LOW_INPUTS, lanes);
    put_records(n, masks, lanes);
}
