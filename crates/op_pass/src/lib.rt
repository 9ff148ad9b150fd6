// Pass (SPECIFICATION 7.10): a straight block's values in one sweep.
#![tactic(auto)]

ghost use Rattle.op_pass.specs.Passed.{PassPromise};

use crate::sweep::sweep_into;
use netlist::{Answer, Done};
use op_settle::setting::test_setting;
use words_block::{check_straight, check_words};
use words_layout::offsets::gates_of;
use words_refusals::test_room;

pub mod sweep;

// Pass (6, 10, 7, 11): the values of a straight block in one sweep, equal to Settle's; count: gates.
pub fn pass(words: &[u16], setting: &[u8], values: &mut [u8]) -> Answer
    ensures { PassPromise words.now setting.now values.old result values.new }
{
    let block = check_words(words)?;
    check_straight(&block)?;
    test_setting(words, setting)?;
    test_room(values.len(), gates_of(words))?;
    let count = sweep_into(&block, setting, values);
    Ok(Done { count, detail: 0 })
}
