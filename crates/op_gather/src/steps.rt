// Gather and Scatter of a block, with the scratch arrays lent by the caller.
ghost use Rattle.std.specs.Prelude.{◌≡◌, ◌||◌, length, ltb};
ghost use Rattle.prelude.specs.Lists.{placed};
ghost use Rattle.netlist.specs.declared.Refusal.TheVariants.{NoRoom};
ghost use Rattle.netlist.specs.StoredBlock.{decode};
ghost use Rattle.netlist.specs.Answers.{Promise};
ghost use Rattle.words_refusals.specs.Tests.{test_of};
ghost use Rattle.netlist.specs.Gather.{gathered_words, gathered_order, scatter};
ghost use Rattle.op_gather.specs.Promise.{BlockRoom};

use crate::arranged::write_arranged;
use crate::places::find_places;
use netlist::{Answer, Done, Refusal};
use op_groups::assign::assign;
use unroll_order::list_members;
use words_layout::block::Block;
use words_layout::limits::MAX_GATES;
use words_layout::offsets::gates_of;
use words_refusals::{refuse_if, test_room};

// Refusal 11 of Gather: is the slice for the block or the one for the list too small?
pub fn check_rooms(room: usize, needed: usize, list: usize, gates: usize) -> Result<(), Refusal>
    ensures { result ≡ test_of (ltb room needed || ltb list gates) NoRoom }
{
    if room < needed {
        return Err(Refusal::NoRoom);
    }
    test_room(list, gates)
}

// Lists the gates by group, and writes the block in that order.
pub fn write_gathered(
    block: &Block,
    numbers: &mut [u16; MAX_GATES],
    places: &mut [u16; MAX_GATES],
    table: &mut [u16; MAX_GATES],
    gathered: &mut [u16],
    order: &mut [u16],
)
    requires { BlockRoom block.now.words.now gathered.old order.old }
    ensures gathered_after { gathered.new ≡ placed (gathered_words (decode block.now.words.now)) gathered.old }
    ensures order_after { order.new ≡ placed (gathered_order (decode block.now.words.now)) order.old }
{
    let m = gates_of(block.words);
    let count = assign(block, numbers);
    list_members(m, numbers, count, order);
    find_places(&order[..m], m, places);
    write_arranged(block.words, order, places, table, gathered);
}

// Scatter's tests of the list and of the room, and then the block.
pub fn scatter_with(
    block: &Block,
    order: &[u16],
    places: &mut [u16; MAX_GATES],
    table: &mut [u16; MAX_GATES],
    original: &mut [u16],
) -> Answer
    ensures { Promise (scatter block.now.words.now order.now (length original.old))
        original.old result original.new }
{
    let listed = find_places(order, gates_of(block.words), places);
    refuse_if(!listed, Refusal::NotAPermutation)?;
    test_room(original.len(), block.words.len())?;
    write_arranged(block.words, places, order, table, original);
    Ok(Done {
        count: block.words.len(),
        detail: 0,
    })
}
