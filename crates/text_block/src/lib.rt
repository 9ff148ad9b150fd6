// The words of a text's block, from its tables: the counts, the names of the inputs, and the words of never lines,
// gates and outputs that are there already.
#![tactic(auto)]

ghost use Rattle.std.specs.Prelude.{◌≡◌, [], ◌∷◌, ◌+◌, ◌*◌, ◌≤◌, length};
ghost use Rattle.std.proofs.lemmas.List.Edits.{sets};
ghost use Rattle.prelude.specs.Lists.{tab, joined};
ghost use Rattle.netlist.specs.Limits.{max_inputs, max_nevers, max_gates, max_outputs};
ghost use Rattle.netlist.specs.StoredBlock.{name_size, inputs_at};
ghost use Rattle.text_names.specs.Ports.{port_words};
ghost use Rattle.text_block.specs.Words.{name_of, word_of, tree_block_words, PutReady};

use text_lines::counts::Counts;
use words_layout::offsets::{
    GATE_SIZE, INPUTS_AT, NAME_SIZE, NEVER_SIZE, OUTPUT_SIZE, gates_behind, nevers_at,
    outputs_behind,
};

// Writes the four counts.
fn put_counts(c: Counts, block: &mut [u16])
    requires { (c.inputs ≤ max_inputs) × (c.gates ≤ max_gates) × (c.outputs ≤ max_outputs) × (c.nevers ≤ max_nevers)
        × (inputs_at ≤ length block.old) }
    ensures { block.new ≡ sets block.old 0
        (c.inputs ∷ c.gates ∷ c.outputs ∷ c.nevers ∷ []) }
{
    block[0] = c.inputs as u16;
    block[1] = c.gates as u16;
    block[2] = c.outputs as u16;
    block[3] = c.nevers as u16;
}

// Writes the four words of the name with this number.
pub fn put_name(block: &mut [u16], at: usize, name: u64)
    requires { at + name_size ≤ length block.old }
    ensures { block.new ≡ sets block.old at (port_words name) }
{
    block[at] = (name % 65536) as u16;
    block[at + 1] = (name / 65536 % 65536) as u16;
    block[at + 2] = (name / 4294967296 % 65536) as u16;
    block[at + 3] = (name / 281474976710656 % 65536) as u16;
}

// Writes these names.
fn put_names(names: &[u64], block: &mut [u16])
    requires { inputs_at + name_size * length names.now ≤ length block.old }
    ensures { block.new ≡ sets block.old inputs_at
        (joined (tab (name_of names.now) (length names.now))) }
{
    for i in 0..names.len() {
        put_name(block, INPUTS_AT + NAME_SIZE * i, names[i]);
    }
}

// Copies these words to place `at` of the block.
fn put_words(words: &[u16], block: &mut [u16], at: usize)
    requires { at + length words.now ≤ length block.old }
    ensures { block.new ≡ sets block.old at words.now }
{
    block[at..at + words.len()].copy_from_slice(words);
}

// Writes a whole block.
pub fn put_block(
    c: Counts,
    names: &[u64],
    masks: &[u16],
    gates: &[u16],
    outputs: &[u16],
    block: &mut [u16],
)
    requires { PutReady c names.now masks.now gates.now outputs.now block.old }
    ensures { block.new ≡ sets block.old 0
        (tree_block_words c names.now masks.now gates.now outputs.now) }
{
    let n = c.inputs;
    let lines = c.nevers;
    let m = c.gates;
    put_counts(c, block);
    put_names(&names[..n], block);
    put_words(&masks[..NEVER_SIZE * lines], block, nevers_at(n));
    put_words(&gates[..GATE_SIZE * m], block, gates_behind(n, lines));
    put_words(
        &outputs[..OUTPUT_SIZE * c.outputs],
        block,
        outputs_behind(n, lines, m),
    );
}
