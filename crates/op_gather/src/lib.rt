// Gather and Scatter (SPECIFICATION 7.17, 7.18): gates numbered afresh, so that those of a strongly connected group lie
// side by side, and the way back. specs/Promise.antt has Gather's promise, which is on two slices.
#![tactic(auto)]

ghost use Rattle.std.specs.Prelude.{◌≡◌, length};
ghost use Rattle.prelude.specs.Lists.{placed};
ghost use Rattle.netlist.specs.StoredBlock.{decode};
ghost use Rattle.netlist.specs.Answers.{Promise};
ghost use Rattle.netlist.specs.Gather.{gathered_words, gathered_order, scatter as scatter_of};
ghost use Rattle.op_gather.specs.Promise.{GatherPromise, BlockRoom};

use netlist::{Answer, Done};
use words_block::check_words;
use words_layout::block::Block;
use words_layout::limits::MAX_GATES;
use words_layout::offsets::gates_of;

pub mod arranged;
pub mod places;
pub mod steps;

// Writes the gathered words and their list into slices that have room; makes the arrays that this needs.
fn gather_block(block: &Block, gathered: &mut [u16], order: &mut [u16])
    requires { BlockRoom block.now.words.now gathered.old order.old }
    ensures gathered_after { gathered.new ≡ placed (gathered_words (decode block.now.words.now)) gathered.old }
    ensures order_after { order.new ≡ placed (gathered_order (decode block.now.words.now)) order.old }
{
    let mut numbers = [0u16; MAX_GATES];
    let mut places = [0u16; MAX_GATES];
    let mut table = [0u16; MAX_GATES];
    steps::write_gathered(
        block,
        &mut numbers,
        &mut places,
        &mut table,
        gathered,
        order,
    );
}

// Gather (6, 11): the block with its gates by group, and the list of their old numbers; count: the block's words.
pub fn gather(words: &[u16], gathered: &mut [u16], order: &mut [u16]) -> Answer
    ensures { GatherPromise words.now gathered.old order.old result
        gathered.new order.new }
{
    let block = check_words(words)?;
    steps::check_rooms(gathered.len(), words.len(), order.len(), gates_of(words))?;
    gather_block(&block, gathered, order);
    Ok(Done {
        count: words.len(),
        detail: 0,
    })
}

// Scatter of a block; makes the arrays that this needs.
fn scatter_block(block: &Block, order: &[u16], original: &mut [u16]) -> Answer
    ensures { Promise (scatter_of block.now.words.now order.now (length original.old))
        original.old result original.new }
{
    let mut places = [0u16; MAX_GATES];
    let mut table = [0u16; MAX_GATES];
    steps::scatter_with(block, order, &mut places, &mut table, original)
}

// Scatter (6, 13, 11): the block with its gates back in their old order, from the list of their old numbers; count:
// words.
pub fn scatter(words: &[u16], order: &[u16], original: &mut [u16]) -> Answer
    ensures { Promise (scatter_of words.now order.now (length original.old))
        original.old result original.new }
{
    let block = check_words(words)?;
    scatter_block(&block, order, original)
}
