// Cells (SPECIFICATION 7.15): a straight block's gates as lookup cells, one each.
ghost use Rattle.std.specs.Prelude.{◌≡◌, ◌<◌, ◌≤◌, ◌+◌, ◌*◌, length, get_or};
ghost use Rattle.prelude.specs.Lists.{placed};
ghost use Rattle.netlist.specs.StoredBlock.{operand_words, decode};
ghost use Rattle.netlist.specs.Cells.{cell_size, cells_of};
ghost use Rattle.graph_simulation.specs.Legal.{LegalHead};
ghost use Rattle.op_cells.specs.Promise.{CellsPromise};

use crate::CELL_SIZE;
use crate::truth::truth_word;
use netlist::{Answer, Done};
use words_block::{check_straight, check_words};
use words_layout::block::Block;
use words_layout::nodes::CONSTANT_0;
use words_layout::offsets::{OPERAND_WORDS, gates_at, gates_of};
use words_layout::read::word_at;
use words_refusals::test_room;

// A gate whose words start at `at`: its head is legal, and all its words are there.
#[derive(Clone, Copy)]
struct Gate<'a> {
    words: &'a [u16],
    at: usize,
    ghost legal: { LegalHead words.now at },
    ghost whole: { at + operand_words < length words.now },
}

impl<'a> Gate<'a> {
    ghost use Rattle.op_cells.specs.Gate.{word_of, put_of};

    // Word i of the gate's cell: an operand as in the block, constant 0 where there is none, or the truth word.
    fn cell_word(&self, i: usize) -> u16
        requires { i < cell_size }
        ensures { result ≡ word_of self.now i }
    {
        let head = word_at(self.words, self.at);
        if i == OPERAND_WORDS {
            return truth_word(head);
        }
        if i < head / 8 {
            return self.words[self.at + 1 + i];
        }
        CONSTANT_0 as u16
    }

    // Writes the gate's cell into the five words from `to` on.
    fn put_cell(&self, to: usize, cells: &mut [u16])
        requires { to + cell_size ≤ length cells.old }
        ensures { cells.new ≡ put_of self.now to cells.old }
    {
        cells[to] = self.cell_word(0);
        cells[to + 1] = self.cell_word(1);
        cells[to + 2] = self.cell_word(2);
        cells[to + 3] = self.cell_word(3);
        cells[to + 4] = self.cell_word(4);
    }
}

// Writes the block's cells, `count` words, into `cells`.
fn put_cells(block: &Block, count: usize, cells: &mut [u16])
    requires { (count ≡ cell_size * get_or block.now.words.now 1 0) × (count ≤ length cells.old) }
    ensures { cells.new ≡ placed (cells_of (decode block.now.words.now)) cells.old }
{
    let start = gates_at(block.words);
    // A range with step_by would need the same measure, and be no plainer.
    let mut p = 0;
    while p < count {
        let gate = Gate {
            words: block.words,
            at: start + p,
        };
        gate.put_cell(p, cells);
        p += CELL_SIZE;
    }
}

// Cells (6, 10, 11): a cell for each gate of a straight block, in the same order; count: words. A run of them gives
// Pass's values.
pub fn make_cells(words: &[u16], cells: &mut [u16]) -> Answer
    ensures { CellsPromise words.now cells.old result cells.new }
{
    let block = check_words(words)?;
    check_straight(&block)?;
    let count = CELL_SIZE * gates_of(words);
    test_room(cells.len(), count)?;
    put_cells(&block, count, cells);
    Ok(Done { count, detail: 0 })
}
