// The rules of a block's names, of inputs and of ports (SPECIFICATION 2.2, 2.4): each is legal and padded by zeros, and
// none stands twice.
ghost use Rattle.std.specs.Prelude.{◌≡◌, ◌≤◌, ◌<◌, ◌+◌, ◌*◌, get_or};
ghost use Rattle.netlist.specs.Limits.{max_name, max_gates};
ghost use Rattle.netlist.specs.StoredBlock.{bytes_at};
ghost use Rattle.words_layout.specs.Bounds.{max_word, place_room};
ghost use Rattle.theory_encoding.specs.Rules.{padded, name_rule};
ghost use Rattle.words_block.specs.NameSteps.{zeros_from};

use words_layout::bytes::{is_letter, is_name_byte};
use words_layout::limits::MAX_NAME;
use words_layout::names::is_same;
use words_layout::offsets::NAME_SIZE;
use words_layout::read::word_at;

// Byte i of the eight bytes of the name whose words start at `at`.
fn byte_at(words: &[u16], at: usize, i: usize) -> u8
    requires at_le_max_word { at ≤ max_word }
    requires i_lt_max_name { i < max_name }
    ensures { result ≡ get_or (bytes_at words.now at) i 0 }
{
    let word = word_at(words, at + i / 2);
    if i % 2 == 0 {
        (word % 256) as u8
    } else {
        (word / 256) as u8
    }
}

// Are the bytes from i on all zero?
fn only_zeros(words: &[u16], at: usize, i: usize) -> bool
    requires at_le_max_word { at ≤ max_word }
    requires i_le_max_name { i ≤ max_name }
    ensures { result ≡ zeros_from (bytes_at words.now at) i }
{
    for j in i..MAX_NAME {
        if byte_at(words, at, j) != 0 {
            return false;
        }
    }
    true
}

// Do name bytes stand at the front, and only zeros behind them?
fn is_padded(words: &[u16], at: usize) -> bool
    requires { at ≤ max_word }
    ensures { result ≡ padded (bytes_at words.now at) }
{
    for i in 0..MAX_NAME {
        let c = byte_at(words, at, i);
        if c == 0 {
            return only_zeros(words, at, i + 1);
        }
        if !is_name_byte(c) {
            return false;
        }
    }
    true
}

// Is the name at `at` legal?
fn is_legal(words: &[u16], at: usize) -> bool
    requires { at ≤ max_word }
    ensures { result ≡ name_rule words.now at }
{
    is_letter(byte_at(words, at, 0)) && is_padded(words, at)
}

// Names in a row: the first stands at `at`, and each `size` words behind the one before it.
#[derive(Clone, Copy)]
pub struct Names<'a> {
    pub words: &'a [u16],
    pub at: usize,
    pub size: usize,
    pub ghost near: { at ≤ place_room },
    pub ghost small: { size ≤ 5 },
}

impl<'a> Names<'a> {
    ghost use Rattle.words_block.specs.Names.{is_other, are_others, is_new_name, keeps_rule};

    // Where name i stands.
    fn place(&self, i: usize) -> usize
        requires { i ≤ max_gates }
        ensures { (result ≡ self.now.at + self.now.size * i) × (result ≤ max_word) }
    {
        self.at + self.size * i
    }

    // Do names i and j differ?
    fn differ(&self, j: usize, i: usize) -> bool
        requires { (j ≤ max_gates) × (i ≤ max_gates) }
        ensures { result ≡ is_other self.now j i }
    {
        !is_same(self.words, self.place(i), self.words, self.place(j))
    }

    // Does name j differ from all before it?
    fn is_new(&self, j: usize) -> bool
        requires { j ≤ max_gates }
        ensures { result ≡ are_others self.now j }
    {
        (0..j).all(|i| self.differ(j, i))
    }

    // Is name j legal, and not one of those before it?
    fn is_legal_and_new(&self, j: usize) -> bool
        requires { j ≤ max_gates }
        ensures { result ≡ is_new_name self.now j }
    {
        is_legal(self.words, self.place(j)) && self.is_new(j)
    }

    // Are the first `count` names all legal and no two the same?
    pub fn fit(&self, count: usize) -> bool
        requires { count ≤ max_gates }
        ensures { result ≡ keeps_rule self.now count }
    {
        (0..count).all(|j| self.is_legal_and_new(j))
    }
}
