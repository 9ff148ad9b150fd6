// Render (SPECIFICATION 7.9): the loop-free rendering of a block, in its steps: the plan and the list of groups
// (`listing`), the walk over settings (crates/unroll_depth), which tells of 8 and 9, and behind these the room (11) and
// the rendered block's words (`writing`). specs/Promise.antt states the whole claim.
#![tactic(auto)]

ghost use Rattle.std.specs.Prelude.{length};
ghost use Rattle.netlist.specs.Answers.{Promise};
ghost use Rattle.netlist.specs.Operations.{render as render_of};
ghost use Rattle.op_render.specs.Promise.{RenderPromise};

use crate::listing::list_block;
use crate::writing::{finish, test_settings};
use lanes_batch::plan::{Plan, PlannedBlock, blank_plan};
use netlist::{Answer, Refusal};
use unroll_depth::walk::walk_batches;
use unroll_order::GroupPasses;
use words_block::check_words;
use words_layout::block::Block;
use words_layout::limits::MAX_GATES;
use words_refusals::refuse_if;

mod listing;
mod writing;

// Render of a block, with room lent for its plan, the list of its groups and how often each is copied.
fn render_with(
    block: &Block,
    plan: &mut Plan,
    members: &mut [u16; MAX_GATES],
    starts: &mut [u16; MAX_GATES + 1],
    passes: &mut [u16; MAX_GATES],
    rendered: &mut [u16],
) -> Answer
    ensures { Promise (render_of block.now.words.now (length rendered.old)) rendered.old result
        rendered.new }
{
    let count = list_block(block, plan, members, starts);
    let planned = PlannedBlock {
        words: block.words,
        plan,
    };
    let found = walk_batches(planned, count, members, starts, passes);
    refuse_if(MAX_GATES < found.total, Refusal::TooManyCopies)?;
    test_settings(block, found.lowest)?;
    let group_passes = GroupPasses {
        members,
        starts,
        passes,
        count,
    };
    finish(block.words, &group_passes, found.total, rendered)
}

// Render (6, 8, 9, 11): the rendered block's words; count: words.
pub fn render(words: &[u16], rendered: &mut [u16]) -> Answer
    ensures { RenderPromise words.now rendered.old result rendered.new }
{
    let block = check_words(words)?;
    let mut plan = blank_plan();
    let mut members = [0u16; MAX_GATES];
    let mut starts = [0u16; MAX_GATES + 1];
    let mut passes = [0u16; MAX_GATES];
    render_with(
        &block,
        &mut plan,
        &mut members,
        &mut starts,
        &mut passes,
        rendered,
    )
}
