// The words of all places in a batch of settings: the two constants, the inputs, and cell after cell.
ghost use Rattle.std.specs.Prelude.{◌≡◌, ◌%◌, ◌≤◌, ◌<◌, get_or};
ghost use Rattle.netlist.specs.Limits.{max_inputs, max_gates};
ghost use Rattle.lanes_dual_rail.specs.Pairs.{full};
ghost use Rattle.lanes_dual_rail.specs.Batches.{lanes_of};
ghost use Rattle.graph_gates.specs.Places.{place_count};
ghost use Rattle.op_compare_cells.specs.Table.{table_size, count_in, CellPlaces, EarlierPlaces, table_cells};
ghost use Rattle.op_compare_cells.specs.CellLanes.{input_word, cell_word_at, InputsIn, Evaluated};

use crate::choice::cell_word;
use crate::table::{COUNT_AT, TABLE_WORDS};
use graph_gates::{FIRST_GATE, FIRST_INPUT, PLACES};
use lanes_dual_rail::inputs::{pattern_of, used_lanes};
use op_cells::CELL_SIZE;
use words_layout::limits::MAX_INPUTS;
use words_layout::offsets::OPERAND_WORDS;

// The word of input `i` of n under the settings from `base` on; 0 behind the last input.
fn input_word(n: usize, base: usize, i: usize) -> u64
    requires { i < max_inputs }
    ensures { result ≡ input_word n base i }
{
    if i < n {
        return pattern_of(base, i) & used_lanes(n);
    }
    0
}

// Writes the words of the constants and of the inputs at their places.
fn put_inputs(n: usize, base: usize, nodes: &mut [u64; PLACES])
    requires { (n ≤ max_inputs) × (base % 64 ≡ 0) }
    ensures { InputsIn n base nodes.new }
{
    nodes[0] = 0;
    nodes[1] = used_lanes(n);
    for i in 0..MAX_INPUTS {
        nodes[FIRST_INPUT + i] = input_word(n, base, i);
    }
}

// The word at the place that word `at` of the table names.
fn operand_word(table: &[u16; TABLE_WORDS], at: usize, nodes: &[u64; PLACES]) -> u64
    requires { (at < table_size) × (get_or table.now at 0 < place_count) }
    ensures { result ≡ get_or nodes.now (get_or table.now at 0) 0 }
{
    nodes[table[at] as usize]
}

// The word of cell `j`, from the words of its operands.
fn cell_word_at(used: u64, table: &[u16; TABLE_WORDS], j: usize, nodes: &[u64; PLACES]) -> u64
    requires { (j < max_gates) × CellPlaces place_count table.now j }
    ensures { result ≡ cell_word_at used table.now j nodes.now }
{
    let at = CELL_SIZE * j;
    let a = operand_word(table, at, nodes);
    let b = operand_word(table, at + 1, nodes);
    let c = operand_word(table, at + 2, nodes);
    let d = operand_word(table, at + 3, nodes);
    cell_word(used, table[at + OPERAND_WORDS] as usize, a, b, c, d)
}

// Writes the word of every place: the constants, the inputs, and the table's cells under the settings from `base` on.
pub fn evaluate_cells(n: usize, base: usize, table: &[u16; TABLE_WORDS], nodes: &mut [u64; PLACES])
    requires { (n ≤ max_inputs) × (base % 64 ≡ 0) × EarlierPlaces table.now }
    ensures { Evaluated n base (table_cells table.now) (count_in table.now) nodes.new }
{
    let used = used_lanes(n);
    put_inputs(n, base, nodes);
    let count = table[COUNT_AT] as usize;
    for j in 0..count {
        nodes[FIRST_GATE + j] = cell_word_at(used, table, j, nodes);
    }
}
