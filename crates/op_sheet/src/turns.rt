// The turns of a call, two for each record: up to LANES records are read one after the other, at the last of them they
// are settled, and then they are answered one after the other.
ghost use Rattle.std.specs.Prelude.{◌≡◌, false, ◌*◌, ◌-◌, ◌%◌, ◌<◌};
ghost use Rattle.netlist.specs.StoredBlock.{decode};
ghost use Rattle.netlist.specs.Sheet.{refused_record, record_of};
ghost use Rattle.op_sheet.specs.Side.{Room};
ghost use Rattle.op_sheet.specs.Order.{size_at, record_at, reads_at, BatchAdvanced, Answerable, turned};

use crate::outputs::{SHOWN_WORDS, show_lane};
use crate::records::{LANES, Masks};
use crate::settling::settle_records;
use netlist::{Record, Refusal};
use words_layout::block::Block;
use words_layout::masks::are_masks;
use words_layout::offsets::inputs_of;
use words_refusals::number_of;

// The turns of a batch of LANES records.
const TURNS: usize = 2 * LANES;

// The masks of the records that are read, and what the outputs show at their lanes.
#[derive(Clone, Copy)]
pub struct Batch {
    pub fixed: [u16; LANES],
    pub ones: [u16; LANES],
    pub shown: [u64; SHOWN_WORDS],
}

// No record is read.
pub fn no_batch() -> Batch
    ensures { Room result }
{
    Batch {
        fixed: [0; LANES],
        ones: [0; LANES],
        shown: [0; SHOWN_WORDS],
    }
}

// How many records the batch of turn t has: LANES, or what is left of them.
fn size_at(count: usize, t: usize) -> usize
    requires { t < 2 * count }
    ensures { result ≡ size_at count t }
{
    let left = count - LANES * (t / TURNS);
    if LANES <= left {
        return LANES;
    }
    left
}

// The place of the record that turn t reads or answers.
pub fn place_at(count: usize, t: usize) -> usize
    requires { t < 2 * count }
    ensures { result ≡ record_at count t }
{
    let size = size_at(count, t);
    let first = LANES * (t / TURNS);
    if t % TURNS < size {
        return first + t % TURNS;
    }
    first + (t % TURNS - size)
}

// The batch after turn t, which finds this record at its place.
pub fn advance(block: &Block, count: usize, t: usize, asked: Record, batch: Batch) -> Batch
    requires { (t < 2 * count) × Room batch }
    ensures { BatchAdvanced block.now.words.now count t asked batch result }
{
    let size = size_at(count, t);
    let s = t % TURNS;
    if size <= s {
        return batch;
    }
    let mut fixed = batch.fixed;
    let mut ones = batch.ones;
    let mut shown = batch.shown;
    fixed[s] = asked.fixed;
    ones[s] = asked.ones;
    if s + 1 < size {
        return Batch { fixed, ones, shown };
    }
    let masks = Masks {
        fixed: &fixed,
        ones: &ones,
        count: size,
    };
    settle_records(block, &masks, &mut shown);
    Batch { fixed, ones, shown }
}

// A record with refusal 7 and two zero masks of outputs.
fn refuse(fixed: u16, ones: u16) -> Record
    ensures { result ≡ refused_record fixed ones }
{
    Record {
        fixed,
        ones,
        number: number_of(Refusal::BadSetting) as u16,
        defined: 0,
        values: 0,
    }
}

// The answer to a record's masks, which were settled at lane s.
fn answer_lane(block: &Block, s: usize, fixed: u16, ones: u16, shown: &[u64; SHOWN_WORDS]) -> Record
    requires { Answerable block.now.words.now s fixed ones shown.now }
    ensures { result ≡ record_of (decode block.now.words.now) fixed ones }
{
    if !are_masks(inputs_of(block.words), fixed as usize, ones as usize) {
        return refuse(fixed, ones);
    }
    show_lane(block, s, fixed, ones, shown)
}

// The record that turn t leaves at its place: the one that it found there, or the answer.
pub fn answer(words: &[u16], count: usize, t: usize, asked: Record, batch: Batch) -> Record
    requires t_bound { t < 2 * count }
    requires answerable { reads_at count t ≡ false → Answerable words.now (t % 128 - size_at count t) asked.fixed asked.ones
        batch.shown }
    ensures { result ≡ turned words.now count t asked }
{
    let size = size_at(count, t);
    let s = t % TURNS;
    if s < size {
        return asked;
    }
    let shown = batch.shown;
    let block = Block { words };
    answer_lane(&block, s - size, asked.fixed, asked.ones, &shown)
}
