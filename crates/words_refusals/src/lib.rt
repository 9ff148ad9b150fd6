// Refusals: the test of a condition and what an operation answers when it fails, the numbers and details of the table
// of refusals, and an answer's three numbers for callers in other languages (SPECIFICATION 7.1, 7.2).
#![tactic(auto)]

ghost use Rattle.std.specs.Prelude.{◌≡◌, ltb};
ghost use Rattle.std.specs.declared.result.Result.TheVariants.{Err};
ghost use Rattle.netlist.specs.declared.Refusal.TheVariants.{NoRoom};
ghost use Rattle.netlist.specs.Answers.{refusal_number, refusal_detail, Shows};
ghost use Rattle.words_refusals.specs.Tests.{test_of};

use netlist::{Answer, Refusal, Reply};

// The test of a condition: refuses where it holds.
pub fn refuse_if(holds: bool, why: Refusal) -> Result<(), Refusal>
    ensures { result ≡ test_of holds why }
{
    if holds {
        return Err(why);
    }
    Ok(())
}

// Refusal 11: is a slice of `room` elements too short for a result of `needed`?
pub fn test_room(room: usize, needed: usize) -> Result<(), Refusal>
    ensures { result ≡ test_of (ltb room needed) NoRoom }
{
    refuse_if(room < needed, Refusal::NoRoom)
}

// A refusal's number in the table of refusals.
pub fn number_of(why: Refusal) -> usize
    ensures { result ≡ refusal_number why }
{
    match why {
        Refusal::TextTooLong => 1,
        Refusal::SyntaxError(_) => 2,
        Refusal::OverLimit => 3,
        Refusal::DuplicateDeclaration(_) => 4,
        Refusal::UndeclaredName(_) => 5,
        Refusal::MalformedBlock => 6,
        Refusal::BadSetting => 7,
        Refusal::TooManyCopies => 8,
        Refusal::NotSettled(_) => 9,
        Refusal::NotStraight => 10,
        Refusal::NoRoom => 11,
        Refusal::InterfaceMismatch => 12,
        Refusal::NotAPermutation => 13,
    }
}

// The place or the setting that a refusal tells, or 0.
pub fn detail_of(why: Refusal) -> usize
    ensures { result ≡ refusal_detail why }
{
    match why {
        Refusal::SyntaxError(place) => place,
        Refusal::DuplicateDeclaration(place) => place,
        Refusal::UndeclaredName(place) => place,
        Refusal::NotSettled(setting) => setting,
        _ => 0,
    }
}

// The three numbers of a refusal; it counts nothing.
fn reply_of_refusal(refusal: Refusal) -> Reply
    ensures { Shows (Err refusal) result }
{
    let number = number_of(refusal);
    let detail = detail_of(refusal);
    Reply {
        number,
        count: 0,
        detail,
    }
}

// The three numbers of an answer.
pub fn reply_of(answer: Answer) -> Reply
    ensures { Shows answer result }
{
    match answer {
        // Number 0 stands beside the two that `done` has; no other place makes a reply of it.
        Ok(done) => Reply {
            number: 0,
            count: done.count,
            detail: done.detail,
        },
        Err(refusal) => reply_of_refusal(refusal),
    }
}
