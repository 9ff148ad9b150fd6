// Refusal 12, the interface: do two blocks have the same input names and the same ports, in the same order? Names are
// compared word by word.
ghost use Rattle.std.specs.Prelude.{◌≡◌, not, ◌≤◌};
ghost use Rattle.prelude.specs.Lists.{all, up_to};
ghost use Rattle.netlist.specs.Limits.{max_gates};
ghost use Rattle.netlist.specs.declared.Refusal.TheVariants.{InterfaceMismatch};
ghost use Rattle.words_refusals.specs.Tests.{test_of};
ghost use Rattle.netlist.specs.StoredBlock.{decode};
ghost use Rattle.netlist.specs.Compare.{same_interface};
ghost use Rattle.words_layout.specs.Bounds.{place_room};
ghost use Rattle.op_compare.specs.Interface.{same_name_at};

use netlist::Refusal;
use words_layout::block::Block;
use words_layout::names::is_same;
use words_layout::offsets::{INPUTS_AT, NAME_SIZE, OUTPUT_SIZE, inputs_of, outputs_at, outputs_of};
use words_refusals::refuse_if;

// Are the first `count` names of ours those of theirs, one by one? Names stand `size` words apart.
fn are_same(
    ours: &[u16],
    at: usize,
    theirs: &[u16],
    other: usize,
    size: usize,
    count: usize,
) -> bool
    requires at_le_place_room { at ≤ place_room }
    requires other_le_place_room { other ≤ place_room }
    requires size_bound { size ≤ 5 }
    requires count_le_max_gates { count ≤ max_gates }
    ensures { result ≡ all (same_name_at ours.now at theirs.now other size) (up_to count) }
{
    for i in 0..count {
        if !is_same(ours, at + size * i, theirs, other + size * i) {
            return false;
        }
    }
    true
}

// Do two blocks have the same number of inputs and of outputs, and the same names?
fn has_interface(ours: &Block, theirs: &Block) -> bool
    ensures { result ≡ same_interface (decode ours.now.words.now) (decode theirs.now.words.now) }
{
    let n = inputs_of(ours.words);
    let k = outputs_of(ours.words);
    if inputs_of(theirs.words) != n {
        return false;
    }
    if outputs_of(theirs.words) != k {
        return false;
    }
    if !are_same(ours.words, INPUTS_AT, theirs.words, INPUTS_AT, NAME_SIZE, n) {
        return false;
    }
    let our_ports = outputs_at(ours.words);
    let their_ports = outputs_at(theirs.words);
    are_same(
        ours.words,
        our_ports,
        theirs.words,
        their_ports,
        OUTPUT_SIZE,
        k,
    )
}

// Refusal 12, of two blocks.
pub fn check_interface(ours: &Block, theirs: &Block) -> Result<(), Refusal>
    ensures { result ≡ test_of (not (same_interface (decode ours.now.words.now) (decode theirs.now.words.now)))
        InterfaceMismatch }
{
    refuse_if(!has_interface(ours, theirs), Refusal::InterfaceMismatch)
}
