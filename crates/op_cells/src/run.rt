// Run (SPECIFICATION 7.16): lookup cells evaluated once each, in order.
ghost use Rattle.std.specs.Prelude.{◌≡◌, ◌≤◌, length};
ghost use Rattle.prelude.specs.Lists.{placed};
ghost use Rattle.netlist.specs.Limits.{max_gates};
ghost use Rattle.netlist.specs.Answers.{Promise};
ghost use Rattle.netlist.specs.Cells.{cell_count, cell_values, run_cells};
ghost use Rattle.op_cells.specs.Runs.{Bits};

use crate::CELL_SIZE;
use crate::legal::check_cells;
use crate::value::Known;
use netlist::{Answer, Done};
use op_settle::setting::test_bytes;
use words_refusals::test_room;

// The highest byte of a setting: a cell has two values.
const MOST: u8 = 1;

// Evaluates each cell once, in order, from the setting and the values that this run has found so far.
fn run_each(inputs: usize, cells: &[u16], count: usize, setting: &[u8], values: &mut [u8])
    requires count_value { (count ≡ cell_count cells.now) × (count ≤ max_gates) × (count ≤ length values.old) }
    requires bits { Bits setting.now }
    ensures { values.new ≡ placed (cell_values inputs cells.now setting.now)
        values.old }
{
    for j in 0..count {
        let known = Known {
            inputs,
            setting,
            found: &values[..j],
        };
        let found = known.cell_value(cells, CELL_SIZE * j);
        values[j] = found;
    }
}

// Run (6, 7, 11): the value of each cell, 0 or 1, a byte each, from a byte for each input; count: cells.
pub fn run_cells(inputs: usize, cells: &[u16], setting: &[u8], values: &mut [u8]) -> Answer
    ensures { Promise (run_cells inputs cells.now setting.now (length values.old))
        values.old result values.new }
{
    check_cells(inputs, cells)?;
    test_bytes(inputs, MOST, setting)?;
    let count = cells.len() / CELL_SIZE;
    test_room(values.len(), count)?;
    run_each(inputs, cells, count, setting, values);
    Ok(Done { count, detail: 0 })
}
