// CompareCells (SPECIFICATION 7.19), an equivalence check by exhaustive simulation: are lookup cells that were made
// elsewhere as good as the original block? The cells are decoded once (`table`) and evaluated under up to 64 settings
// at a time (`evaluate`, `choice`): a cell has two values, so one word a place is enough, bit s for setting s. A
// `miter` tells where an output and the node listed for it differ.
#![tactic(auto)]

ghost use Rattle.std.specs.Prelude.{◌≡◌};
ghost use Rattle.netlist.specs.StoredBlock.{decode};
ghost use Rattle.netlist.specs.Answers.{answer_of, Told};
ghost use Rattle.netlist.specs.CompareCells.{compare_block_cells, compare_cells};
ghost use Rattle.op_compare_cells.specs.Ready.{Comparable};

use crate::table::{TABLE_WORDS, decode_cells};
use graph_gates::PLACES;
use lanes_batch::plan::{PlannedBlock, blank_plan, plan_block};
use lanes_dual_rail::LANE_WORDS;
use netlist::Answer;
use op_cells::legal::check_cells;
use words_block::check_words;
use words_layout::block::Block;
use words_layout::offsets::inputs_of;

mod choice;
mod evaluate;
mod list;
mod miter;
mod settings;
mod table;

// CompareCells of a block whose plan is made: room for the cells' table, for two words a place of the block, and for
// one a place of the cells.
fn compare_planned(block: PlannedBlock, cells: &[u16], shown: &[u16]) -> Answer
    requires { Comparable block.words.now cells.now shown.now }
    ensures { result ≡ answer_of (compare_block_cells (decode block.entry.words.now) cells.now shown.now) }
{
    let mut table = [0u16; TABLE_WORDS];
    let mut lanes = [0u64; LANE_WORDS];
    let mut nodes = [0u64; PLACES];
    decode_cells(inputs_of(block.words), cells, &mut table);
    settings::search_settings(block, shown, &table, &mut lanes, &mut nodes)
}

// CompareCells when all tests were passed: makes room for the block's plan.
fn compare_passed(block: &Block, cells: &[u16], shown: &[u16]) -> Answer
    requires { Comparable block.now.words.now cells.now shown.now }
    ensures { result ≡ answer_of (compare_block_cells (decode block.now.words.now) cells.now shown.now) }
{
    let mut plan = blank_plan();
    plan_block(block, &mut plan);
    let planned = PlannedBlock {
        words: block.words,
        plan: &plan,
    };
    compare_planned(planned, cells, shown)
}

// CompareCells (6, 6, 12, 6): accepted with count and detail 0, or the lowest setting that counts with another value at
// an output, and the lowest such output plus 1.
pub fn compare_cells(words: &[u16], cells: &[u16], shown: &[u16]) -> Answer
    ensures { Told (compare_cells words.now cells.now shown.now) result }
{
    let block = check_words(words)?;
    check_cells(inputs_of(words), cells)?;
    list::check_length(words, shown)?;
    list::check_listed(&block, cells, shown)?;
    compare_passed(&block, cells, shown)
}
