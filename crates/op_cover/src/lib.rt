// Cover (SPECIFICATION 4, 7.7): the sound partial assignments from which no single fixed input can be dropped. They are
// the prime implicants of "settled or never comes", where settings that never come are don't-cares. Each setting is
// decided once, into a table (`table`); `implicants` and the modules that it calls find the entries in it.
#![tactic(auto)]

ghost use Rattle.std.specs.Prelude.{◌≡◌, ◌^◌, length};
ghost use Rattle.netlist.specs.Limits.{max_inputs};
ghost use Rattle.netlist.specs.Answers.{Promise};
ghost use Rattle.netlist.specs.Operations.{cover_of};

use crate::implicants::cover_entries;
use crate::settings::Settings;
use lanes_batch::plan::{Plan, blank_plan};
use lanes_dual_rail::LANE_WORDS;
use netlist::{Answer, Done};
use table::tabulate;
use words_block::check_words;
use words_layout::block::Block;
use words_layout::limits::MAX_SETTINGS;
use words_layout::offsets;
use words_refusals::test_room;

mod entries;
mod everywhere;
mod implicants;
mod minimal;
mod pairs;
mod settings;
mod table;
mod tables;

// Cover of a block, with room lent for its plan, two words a place, and a byte a setting. `cover_entries` alters nothing where the entries' words, two an entry, do not fit.
fn whole_cover(
    block: &Block,
    plan: &mut Plan,
    lanes: &mut [u64; LANE_WORDS],
    settled: &mut [u8],
    entries: &mut [u16],
) -> Answer
    requires { length settled.old ≡ 2 ^ max_inputs }
    ensures { Promise (cover_of block.now.words.now (length entries.old)) entries.old result
        entries.new }
{
    tabulate(block, plan, lanes, settled);
    let inputs = offsets::inputs_of(block.words);
    let count = cover_entries(&Settings { settled, inputs }, entries);
    test_room(entries.len() / 2, count)?;
    Ok(Done { count, detail: 0 })
}

// Cover (6, 11): two words an entry; count: entries.
pub fn cover(words: &[u16], entries: &mut [u16]) -> Answer
    ensures { Promise (cover_of words.now (length entries.old)) entries.old result
        entries.new }
{
    let block = check_words(words)?;
    let mut plan = blank_plan();
    let mut lanes = [0u64; LANE_WORDS];
    let mut settled = [0u8; MAX_SETTINGS];
    whole_cover(&block, &mut plan, &mut lanes, &mut settled, entries)
}
