// The truth words of all kinds and operand counts. Bit b of a word is what the kind gives when operand i is bit i of b;
// the bits behind the last operand play no part.
ghost use Rattle.std.specs.Prelude.{◌≡◌, ◌/◌, ◌%◌};
ghost use Rattle.netlist.specs.Cells.{truth_word};
ghost use Rattle.op_cells.specs.Made.{GateHead, truth_words};

// An entry for each first word that a gate may have, kind + 8 * count, and 0 for the others.
const TRUTH_WORDS: [u16; 39] = [
    0, 0, 0, 0, 0, 0, 0, 0, 0x5555, // not of 1
    0, 0, 0, 0, 0, 0, 0, 0, 0x8888, // and of 2
    0xeeee, // or of 2
    0x7777, // nand of 2
    0x1111, // nor of 2
    0x6666, // xor of 2
    0x9999, // xnor of 2
    0, 0, 0x8080, // and of 3
    0xfefe, // or of 3
    0x7f7f, // nand of 3
    0x0101, // nor of 3
    0x9696, // xor of 3
    0x6969, // xnor of 3
    0, 0, 0x8000, // and of 4
    0xfffe, // or of 4
    0x7fff, // nand of 4
    0x0001, // nor of 4
    0x6996, // xor of 4
    0x9669, // xnor of 4
];

// The table of truth words, as one value: an array constant is read through a function.
fn truth_words() -> [u16; 39]
    ensures { result ≡ truth_words }
{
    TRUTH_WORDS
}

// The truth word of the gate whose first word is `head`.
pub fn truth_word(head: usize) -> u16
    requires { GateHead head }
    ensures { result ≡ truth_word (head % 8) (head / 8) }
{
    let words = truth_words();
    words[head]
}
