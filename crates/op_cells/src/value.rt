// One cell's value: the bit of its truth word that its operands choose.
ghost use Rattle.std.specs.Prelude.{◌≡◌, ◌<◌, ◌+◌, get_or};
ghost use Rattle.netlist.specs.StoredBlock.{operand_words};
ghost use Rattle.words_layout.specs.Bounds.{count_room};
ghost use Rattle.op_cells.specs.Runs.{ReadsBits};

use words_layout::bytes::byte_at;
use words_layout::nodes::{CONSTANT_0, CONSTANT_1};
use words_layout::offsets::OPERAND_WORDS;
use words_layout::read::word_at;

// What a cell may read: the setting of so many inputs, and the values found before the cell.
#[derive(Clone, Copy)]
pub struct Known<'a> {
    pub inputs: usize,
    pub setting: &'a [u8],
    pub found: &'a [u8],
    ghost bits: { ReadsBits setting.now found.now },
}

impl<'a> Known<'a> {
    ghost use Rattle.op_cells.specs.Known.{bit_of, value_of};

    // The bit of the operand that `word` stands for.
    fn operand_bit(&self, word: usize) -> u8
        ensures { result ≡ bit_of self.now word }
    {
        if word < self.inputs {
            return byte_at(self.setting, word);
        }
        match word {
            CONSTANT_0 => 0,
            CONSTANT_1 => 1,
            _ => byte_at(self.found, word - self.inputs),
        }
    }

    // The bit of operand `place` of the cell at `at`.
    fn bit_at(&self, cells: &[u16], at: usize, place: usize) -> usize
        requires { (at < count_room) × (place < operand_words) }
        ensures { result ≡ bit_of self.now (get_or cells.now (at + place) 0) }
    {
        self.operand_bit(word_at(cells, at + place)) as usize
    }

    // The value of the cell at `at`.
    pub fn cell_value(&self, cells: &[u16], at: usize) -> u8
        requires { at < count_room }
        ensures { result ≡ value_of self.now cells.now at }
    {
        let a = self.bit_at(cells, at, 0);
        let b = self.bit_at(cells, at, 1);
        let c = self.bit_at(cells, at, 2);
        let d = self.bit_at(cells, at, 3);
        let place = a + 2 * b + 4 * c + 8 * d;
        let truth = word_at(cells, at + OPERAND_WORDS);
        ((truth >> place) % 2) as u8
    }
}
