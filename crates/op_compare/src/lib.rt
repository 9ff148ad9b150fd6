// Compare (SPECIFICATION 7.13), an equivalence check by exhaustive simulation: is a loop-free block that was made
// elsewhere as good as the original? Behind 6 and 10 the two interfaces must be the same (12, `interface`); then the
// settings are searched, up to 64 at a time, for the lowest under which an output differs (`settings`, `outputs`).
#![tactic(auto)]

ghost use Rattle.std.specs.Prelude.{◌≡◌};
ghost use Rattle.netlist.specs.StoredBlock.{decode};
ghost use Rattle.netlist.specs.Answers.{answer_of, Told};
ghost use Rattle.netlist.specs.Compare.{compare_blocks, compare as compare_of};
ghost use Rattle.op_compare.specs.Ready.{BlockPair};

use crate::interface::check_interface;
use graph_gates::GRAPH_WORDS;
use lanes_batch::plan::blank_plan;
use lanes_dual_rail::LANE_WORDS;
use netlist::Answer;
use words_block::{check_straight, check_words};
use words_layout::block::Block;

mod interface;
mod outputs;
mod settings;

// Compare of two blocks that passed the tests: makes room for a plan of ours, a graph of theirs, and two words a place
// of each.
fn compare_pair(ours: &Block, theirs: &Block) -> Answer
    requires { BlockPair ours.now.words.now theirs.now.words.now }
    ensures { result ≡ answer_of (compare_blocks (decode ours.now.words.now) (decode theirs.now.words.now)) }
{
    let mut plan = blank_plan();
    let mut their_graph = [0u16; GRAPH_WORDS];
    let mut lanes = [0u64; LANE_WORDS];
    let mut others = [0u64; LANE_WORDS];
    settings::compare_with(
        ours,
        theirs,
        &mut plan,
        &mut their_graph,
        &mut lanes,
        &mut others,
    )
}

// Compare (6, 10, 12): accepted with count and detail 0, or the lowest settled setting with another value at an output,
// and the lowest such output plus 1.
pub fn compare(ours: &[u16], theirs: &[u16]) -> Answer
    ensures { Told (compare_of ours.now theirs.now) result }
{
    let our_block = check_words(ours)?;
    let their_block = check_words(theirs)?;
    check_straight(&their_block)?;
    check_interface(&our_block, &their_block)?;
    compare_pair(&our_block, &their_block)
}
