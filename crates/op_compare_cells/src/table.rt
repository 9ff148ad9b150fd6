// Cells decoded once: five words a cell, the places of its four operands (crates/graph_gates/specs/Places.antt) and its
// truth word, and behind them all the number of cells.
ghost use Rattle.std.specs.Prelude.{◌≡◌, true, ◌<◌, length};
ghost use Rattle.netlist.specs.Cells.{are_legal_cells};
ghost use Rattle.op_compare_cells.specs.Table.{table_word, CellTable};

use graph_gates::place_of;
use op_cells::CELL_SIZE;
use words_layout::limits::MAX_GATES;
use words_layout::offsets::OPERAND_WORDS;

// Where the number of cells stands.
pub const COUNT_AT: usize = CELL_SIZE * MAX_GATES;

pub const TABLE_WORDS: usize = COUNT_AT + 1;

// Word `p` of the table: a truth word is kept, an operand becomes its place.
fn table_word(n: usize, cells: &[u16], p: usize) -> u16
    requires { (are_legal_cells n cells.now ≡ true) × (p < length cells.now) }
    ensures { result ≡ table_word n cells.now p }
{
    let word = cells[p];
    if p % CELL_SIZE == OPERAND_WORDS {
        return word;
    }
    place_of(word as usize, n) as u16
}

// The table of legal cells.
pub fn decode_cells(n: usize, cells: &[u16], table: &mut [u16; TABLE_WORDS])
    requires { are_legal_cells n cells.now ≡ true }
    ensures { CellTable n cells.now table.new }
{
    for p in 0..cells.len() {
        table[p] = table_word(n, cells, p);
    }
    table[COUNT_AT] = (cells.len() / CELL_SIZE) as u16;
}
