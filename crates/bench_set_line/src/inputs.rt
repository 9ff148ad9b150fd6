// The names of a block's inputs as numbers.
ghost use Rattle.std.specs.Prelude.{◌≡◌, ◌≤◌, length};
ghost use Rattle.words_layout.specs.Bounds.{max_word};
ghost use Rattle.prelude.specs.Lists.{tab, placed};
ghost use Rattle.bench_set_line.specs.Tables.{input_key};

use text_names::pack::pack;
use text_pieces::name_bytes;
use words_layout::offsets::{INPUTS_AT, NAME_SIZE};

// The number of each input's name.
pub fn fill_inputs(words: &[u16], n: usize, inputs: &mut [u64])
    requires { (n ≤ max_word) × (n ≤ length inputs.old) }
    ensures { inputs.new ≡ placed (tab (input_key words.now) n) inputs.old }
{
    for i in 0..n {
        let bytes = name_bytes(words, INPUTS_AT + NAME_SIZE * i);
        inputs[i] = pack(&bytes);
    }
}
