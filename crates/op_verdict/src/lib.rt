// Verdict (SPECIFICATION 7.6): under how many settings a block settles, by exhaustive bit-parallel simulation.
#![tactic(auto)]

ghost use Rattle.netlist.specs.Answers.{Told};
ghost use Rattle.netlist.specs.Operations.{verdict as verdict_of};

use lanes_batch::plan::{Plan, PlannedBlock, blank_plan, plan_block};
use lanes_dual_rail::LANE_WORDS;
use netlist::Answer;
use words_block::check_words;
use words_layout::block::Block;

pub mod settings;

// Verdict of a block, with room lent for its plan and two words a place.
fn whole_verdict(block: &Block, plan: &mut Plan, lanes: &mut [u64; LANE_WORDS]) -> Answer
    ensures { Told (verdict_of block.now.words.now) result }
{
    plan_block(block, plan);
    let planned = PlannedBlock {
        words: block.words,
        plan,
    };
    settings::search_settings(planned, lanes)
}

// Verdict (6): how many settings that may come are settled; detail: the lowest other of them, or 2^n where there is
// none.
pub fn verdict(words: &[u16]) -> Answer
    ensures { Told (verdict_of words.now) result }
{
    let block = check_words(words)?;
    let mut plan = blank_plan();
    let mut lanes = [0u64; LANE_WORDS];
    whole_verdict(&block, &mut plan, &mut lanes)
}
