// Write (SPECIFICATION 7.11): block to text, each gate on a line of its own and named by `_` and its number; count:
// bytes.
#![tactic(auto)]

ghost use Rattle.std.specs.Prelude.{◌≡◌, ltb, length};
ghost use Rattle.netlist.specs.Answers.{Promise};
ghost use Rattle.netlist.specs.Operations.{write};
ghost use Rattle.netlist.specs.declared.Refusal.TheVariants.{NoRoom};
ghost use Rattle.words_refusals.specs.Tests.{test_of};
ghost use Rattle.op_write.specs.Lines.{block_text};

use lines::put_block;
use netlist::{Answer, Done, Refusal};
use words_block::check_words;
use words_layout::block::Block;
use words_layout::limits::WRITTEN_BYTES;
use words_refusals::test_room;

mod lines;
mod nevers;

// Refusal 11, of a block. Where there is room for the longest text of all blocks, nothing is
// measured; else the text is written once into a slice of one byte, which counts its bytes.
fn check_room(block: &Block, room: usize) -> Result<(), Refusal>
    ensures { result ≡ test_of (ltb room (length (block_text block.now.words.now))) NoRoom }
{
    if WRITTEN_BYTES <= room {
        return Ok(());
    }
    let mut small = [0u8; 1];
    test_room(room, put_block(&mut small, block))
}

// Write (6, 11): the text of a block; count: bytes.
pub fn write(words: &[u16], text: &mut [u8]) -> Answer
    ensures { Promise (write words.now (length text.old)) text.old result text.new }
{
    let block = check_words(words)?;
    check_room(&block, text.len())?;
    let count = put_block(text, &block);
    Ok(Done { count, detail: 0 })
}
