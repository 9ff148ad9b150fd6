// Groups (SPECIFICATION 5 and 7.8): each gate's place in the order of the strongly connected groups, by Kahn's
// algorithm on the leaders that crates/graph_scc finds. `links` makes the lists of the gates of each group, here and
// for whoever puts gates in the order of their groups.
#![tactic(auto)]

ghost use Rattle.std.specs.Prelude.{length};
ghost use Rattle.netlist.specs.Answers.{Promise};
ghost use Rattle.netlist.specs.Operations.{groups_of};

use crate::assign::assign;
use netlist::{Answer, Done};
use words_block::check_words;
use words_layout::offsets::gates_of;
use words_refusals::test_room;

pub mod assign;
pub mod links;
pub mod numbering;
mod ready;
mod waiting;

// Groups (6, 11): each gate's group number, a word each; count: groups.
pub fn groups(words: &[u16], numbers: &mut [u16]) -> Answer
    ensures { Promise (groups_of words.now (length numbers.old)) numbers.old result
        numbers.new }
{
    let block = check_words(words)?;
    test_room(numbers.len(), gates_of(words))?;
    let count = assign(&block, numbers);
    Ok(Done { count, detail: 0 })
}
