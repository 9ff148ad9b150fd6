// Bring (SPECIFICATION 7.14): a block that was stored before there were never lines, as a block of today.
#![tactic(auto)]

ghost use Rattle.std.specs.Prelude.{◌≡◌, ◌≤◌, ◌<◌, length, get_or};
ghost use Rattle.prelude.specs.Lists.{placed};
ghost use Rattle.netlist.specs.declared.Refusal.TheVariants.{MalformedBlock};
ghost use Rattle.netlist.specs.Answers.{Promise};
ghost use Rattle.words_refusals.specs.Tests.{test_of};
ghost use Rattle.netlist.specs.Bring.{max_inputs_before, brought, is_malformed_before, bring as bring_of};

use netlist::{Answer, Done, Refusal};
use words_block::check_words;
use words_layout::fill::copy_slice;
use words_layout::limits::BLOCK_WORDS;
use words_layout::offsets::inputs_of;
use words_refusals::test_room;

// How many counts stood at the head of a block before there were never lines, and the most inputs that it had.
const COUNTS_BEFORE: usize = 3;

const MAX_INPUTS_BEFORE: usize = 10;

// Writes all words of the block of today: the three counts, the fourth, 0, and the other words, each one place further
// on.
fn put_brought(old: &[u16], block: &mut [u16])
    requires { (3 ≤ length old.now) × (length old.now < length block.old) }
    ensures { block.new ≡ placed (brought old.now) block.old }
{
    copy_slice(&old[..COUNTS_BEFORE], &mut block[..COUNTS_BEFORE]);
    block[COUNTS_BEFORE] = 0;
    copy_slice(
        &old[COUNTS_BEFORE..],
        &mut block[COUNTS_BEFORE + 1..old.len() + 1],
    );
}

// Refusal 6 for words that have room in a block: the words of today that they become keep the rules of today.
fn check_brought(old: &[u16], words: &mut [u16]) -> Result<(), Refusal>
    requires in_bounds { (3 ≤ length old.now) × (length old.now < length words.old) }
    requires bound { get_or old.now 0 0 ≤ max_inputs_before }
    ensures { result ≡ test_of (is_malformed_before old.now) MalformedBlock }
{
    put_brought(old, words);
    check_words(&words[..old.len() + 1])?;
    Ok(())
}

// Refusal 6 by the rules that held before there were never lines.
fn check_before(old: &[u16]) -> Result<(), Refusal>
    ensures { result ≡ test_of (is_malformed_before old.now) MalformedBlock }
{
    if old.len() < COUNTS_BEFORE {
        return Err(Refusal::MalformedBlock);
    }
    if BLOCK_WORDS <= old.len() {
        return Err(Refusal::MalformedBlock);
    }
    if MAX_INPUTS_BEFORE < inputs_of(old) {
        return Err(Refusal::MalformedBlock);
    }
    let mut words = [0u16; BLOCK_WORDS];
    check_brought(old, &mut words)
}

// Bring, a migration (6, 11): the words with a fourth count, 0, put in; count: words.
pub fn bring(old: &[u16], block: &mut [u16]) -> Answer
    ensures { Promise (bring_of old.now (length block.old)) block.old result
        block.new }
{
    check_before(old)?;
    let count = old.len() + 1;
    test_room(block.len(), count)?;
    put_brought(old, block);
    Ok(Done { count, detail: 0 })
}
