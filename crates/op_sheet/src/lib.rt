// Sheet (SPECIFICATION 7.12): many settings in one call, a record each. Here are the call's reply and its turns, on
// numbers and arrays: a turn reads a record or answers one, and up to 64 records are settled side by side in lanes
// (`records`, `inputs`, `settling`, `outputs`). The function over the caller's records is the C function in
// crates/exports.
#![tactic(auto)]

ghost use Rattle.std.specs.Prelude.{◌≡◌};
ghost use Rattle.netlist.specs.Answers.{answer_of, Shows};
ghost use Rattle.netlist.specs.Sheet.{sheet};

use netlist::{Answer, Done, Reply};
use words_block::check_words;
use words_refusals::reply_of;

mod inputs;
mod outputs;
mod records;
mod settling;
pub mod turns;

// The answer of the call: refusal 6, or the records' number as the count.
fn answer_to_sheet(words: &[u16], count: usize) -> Answer
    ensures { result ≡ answer_of (sheet words.now count) }
{
    check_words(words)?;
    Ok(Done { count, detail: 0 })
}

// The reply of the call. Its count is also how many records are to be answered: none with refusal 6.
pub fn reply_to_sheet(words: &[u16], count: usize) -> Reply
    ensures { Shows (answer_of (sheet words.now count)) result }
{
    reply_of(answer_to_sheet(words, count))
}
