// The value that an output shows.
ghost use Rattle.std.specs.Prelude.{◌≡◌, ◌+◌, get_or};
ghost use Rattle.netlist.specs.StoredBlock.{name_size, operand_of};
ghost use Rattle.graph_gates.specs.Places.{place_of};
ghost use Rattle.graph_simulation.specs.State.{ShownAt};

use graph_gates::{PLACES, place_of};
use words_layout::offsets::NAME_SIZE;
use words_layout::read::word_at;

// The value of the output whose words start at `port`, in a block of n inputs: what stands at the place of the node
// whose word is behind the port.
pub fn shown_value(words: &[u16], n: usize, port: usize, values: &[u8; PLACES]) -> u8
    requires { ShownAt words.now n port }
    ensures { result ≡ get_or values.now (place_of (operand_of n (get_or words.now (port + name_size) 0))) 0 }
{
    let place = place_of(word_at(words, port + NAME_SIZE), n);
    values[place]
}
