// What the outputs show: inputs and gates that are there, and no constants.
ghost use Rattle.std.specs.Prelude.{◌≡◌, ◌≤◌};
ghost use Rattle.netlist.specs.Limits.{max_outputs};
ghost use Rattle.words_layout.specs.Bounds.{place_room};
ghost use Rattle.words_block.specs.Steps.{shown_rule, shown_rules};

use crate::gates::is_node;
use words_layout::offsets::{NAME_SIZE, OUTPUT_SIZE};
use words_layout::read::word_at;

// Does output o, of those from `at` on, show a node?
fn fits(words: &[u16], nodes: usize, at: usize, o: usize) -> bool
    requires at_le_place_room { at ≤ place_room }
    requires o_le_max_outputs { o ≤ max_outputs }
    ensures { result ≡ shown_rule words.now nodes at o }
{
    is_node(nodes, word_at(words, at + OUTPUT_SIZE * o + NAME_SIZE))
}

// Do all k outputs, from `at` on, show a node?
pub fn fit(words: &[u16], nodes: usize, at: usize, k: usize) -> bool
    requires at_le_place_room { at ≤ place_room }
    requires k_le_max_outputs { k ≤ max_outputs }
    ensures { result ≡ shown_rules words.now nodes at k }
{
    (0..k).all(|o| fits(words, nodes, at, o))
}
