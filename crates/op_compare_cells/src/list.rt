// The list of the nodes that show a block's outputs: refusal 12 of its length, and 6 of a word that is no node.
ghost use Rattle.std.specs.Prelude.{◌≡◌, true, not, eqb, length};
ghost use Rattle.prelude.specs.Lists.{all};
ghost use Rattle.netlist.specs.declared.Refusal.TheVariants.{MalformedBlock, InterfaceMismatch};
ghost use Rattle.netlist.specs.Netlist.{input_count, output_count};
ghost use Rattle.netlist.specs.StoredBlock.{decode};
ghost use Rattle.netlist.specs.Cells.{are_legal_cells};
ghost use Rattle.netlist.specs.CompareCells.{is_listed};
ghost use Rattle.words_refusals.specs.Tests.{test_of};
ghost use Rattle.op_compare_cells.specs.Ready.{is_below};

use netlist::Refusal;
use op_cells::CELL_SIZE;
use words_layout::block::Block;
use words_layout::offsets::{inputs_of, outputs_of};
use words_refusals::refuse_if;

// Refusal 12: does the list have a word for each output?
pub fn check_length(words: &[u16], shown: &[u16]) -> Result<(), Refusal>
    ensures { result ≡ test_of (not (eqb (length shown.now) (output_count (decode words.now))))
        InterfaceMismatch }
{
    refuse_if(shown.len() != outputs_of(words), Refusal::InterfaceMismatch)
}

// Is every word of the list below `nodes`?
fn all_below(shown: &[u16], nodes: usize) -> bool
    ensures { result ≡ all (is_below nodes) shown.now }
{
    shown.iter().all(|node| (*node as usize) < nodes)
}

// Refusal 6: is every word of the list an input or a cell?
pub fn check_listed(block: &Block, cells: &[u16], shown: &[u16]) -> Result<(), Refusal>
    requires { are_legal_cells (input_count (decode block.now.words.now)) cells.now ≡ true }
    ensures { result ≡ test_of
        (not (all (is_listed (input_count (decode block.now.words.now)) cells.now) shown.now))
        MalformedBlock }
{
    let nodes = inputs_of(block.words) + cells.len() / CELL_SIZE;
    refuse_if(!all_below(shown, nodes), Refusal::MalformedBlock)
}
