// Lookup cells, the field's lookup tables (LUTs) of four operands (SPECIFICATION 7.15, 7.16): making cells from a
// straight block, and running cells, which may have been made elsewhere.
#![tactic(auto)]

use words_layout::offsets::OPERAND_WORDS;

pub mod legal;
pub mod make;
pub mod run;
mod truth;
mod value;

// The words of a cell: its operands, then the truth word.
pub const CELL_SIZE: usize = OPERAND_WORDS + 1;
