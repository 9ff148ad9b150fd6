// Where the parts of a stored block stand (SPECIFICATION 2.1): the head's four counts, the inputs' names, the never
// lines, the gates, the outputs. Callers read counts and offsets here and nowhere else.
ghost use Rattle.std.specs.Prelude.{◌≡◌, ◌≤◌, get_or};
ghost use Rattle.netlist.specs.StoredBlock.{nevers_at, gates_at, outputs_at};
ghost use Rattle.words_layout.specs.Bounds.{max_word};

use crate::read::word_at;

// The first input's name, behind the head.
pub const INPUTS_AT: usize = 4;

// The words of a name, of a never line, of a gate, of a gate's operands, and of an output.
pub const NAME_SIZE: usize = 4;

pub const NEVER_SIZE: usize = 2;

pub const GATE_SIZE: usize = 5;

pub const OPERAND_WORDS: usize = 4;

pub const OUTPUT_SIZE: usize = 5;

// The number of inputs, n.
pub fn inputs_of(words: &[u16]) -> usize
    ensures { result ≡ get_or words.now 0 0 }
{
    word_at(words, 0)
}

// The number of gates, m.
pub fn gates_of(words: &[u16]) -> usize
    ensures { result ≡ get_or words.now 1 0 }
{
    word_at(words, 1)
}

// The number of outputs, k.
pub fn outputs_of(words: &[u16]) -> usize
    ensures { result ≡ get_or words.now 2 0 }
{
    word_at(words, 2)
}

// The number of never lines.
pub fn nevers_of(words: &[u16]) -> usize
    ensures { result ≡ get_or words.now 3 0 }
{
    word_at(words, 3)
}

// Behind the names of n inputs: the first never line's first word.
pub fn nevers_at(n: usize) -> usize
    requires { n ≤ max_word }
    ensures { result ≡ nevers_at n }
{
    INPUTS_AT + NAME_SIZE * n
}

// Behind n names and l never lines: the first gate's first word.
pub fn gates_behind(n: usize, l: usize) -> usize
    requires n_le_max_word { n ≤ max_word }
    requires l_le_max_word { l ≤ max_word }
    ensures { result ≡ gates_at n l }
{
    nevers_at(n) + NEVER_SIZE * l
}

// Behind n names, l never lines and m gates: the first output's first word.
pub fn outputs_behind(n: usize, l: usize, m: usize) -> usize
    requires n_le_max_word { n ≤ max_word }
    requires l_le_max_word { l ≤ max_word }
    requires m_le_max_word { m ≤ max_word }
    ensures { result ≡ outputs_at n l m }
{
    gates_behind(n, l) + GATE_SIZE * m
}

// The first gate's first word in a block.
pub fn gates_at(words: &[u16]) -> usize
    ensures { result ≡ gates_at (get_or words.now 0 0) (get_or words.now 3 0) }
{
    gates_behind(inputs_of(words), nevers_of(words))
}

// The first output's first word in a block.
pub fn outputs_at(words: &[u16]) -> usize
    ensures { result ≡ outputs_at (get_or words.now 0 0) (get_or words.now 3 0)
        (get_or words.now 1 0) }
{
    outputs_behind(inputs_of(words), nevers_of(words), gates_of(words))
}
