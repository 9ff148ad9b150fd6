// Refusal 6 of a run (SPECIFICATION 7.16): which words are cells.
ghost use Rattle.std.specs.Prelude.{◌≡◌, not, ◌≤◌};
ghost use Rattle.prelude.specs.Lists.{all, up_to};
ghost use Rattle.netlist.specs.Limits.{max_inputs, max_gates};
ghost use Rattle.netlist.specs.declared.Refusal.TheVariants.{MalformedBlock};
ghost use Rattle.words_refusals.specs.Tests.{test_of};
ghost use Rattle.netlist.specs.Cells.{reads_earlier, are_legal_cells};

use crate::CELL_SIZE;
use netlist::Refusal;
use words_block::gates::is_operand;
use words_layout::limits::{MAX_GATES, MAX_INPUTS};
use words_layout::offsets::OPERAND_WORDS;
use words_layout::read::word_at;
use words_refusals::refuse_if;

// Is each operand of cell j an input, a constant or an earlier cell?
fn reads_earlier(inputs: usize, cells: &[u16], j: usize) -> bool
    requires { (inputs ≤ max_inputs) × (j ≤ max_gates) }
    ensures { result ≡ reads_earlier inputs cells.now j }
{
    let at = CELL_SIZE * j;
    (0..OPERAND_WORDS).all(|i| is_operand(inputs + j, word_at(cells, at + i)))
}

// Does each of the first `count` cells read only inputs, constants and earlier cells?
fn all_read_earlier(inputs: usize, cells: &[u16], count: usize) -> bool
    requires { (inputs ≤ max_inputs) × (count ≤ max_gates) }
    ensures { result ≡ all (reads_earlier inputs cells.now) (up_to count) }
{
    (0..count).all(|j| reads_earlier(inputs, cells, j))
}

// Are these legal cells: few enough inputs and cells, none of them cut off, and no operand that is not there yet?
fn are_legal(inputs: usize, cells: &[u16]) -> bool
    ensures { result ≡ are_legal_cells inputs cells.now }
{
    if MAX_INPUTS < inputs {
        return false;
    }
    let length = cells.len();
    if CELL_SIZE * MAX_GATES < length {
        return false;
    }
    if length % CELL_SIZE != 0 {
        return false;
    }
    all_read_earlier(inputs, cells, length / CELL_SIZE)
}

// Refusal 6 of a run, of any number of inputs and a slice of any length and content: are these cells?
pub fn check_cells(inputs: usize, cells: &[u16]) -> Result<(), Refusal>
    ensures { result ≡ test_of (not (are_legal_cells inputs cells.now)) MalformedBlock }
{
    refuse_if(!are_legal(inputs, cells), Refusal::MalformedBlock)
}
