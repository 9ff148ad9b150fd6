// Read (SPECIFICATION 7.3), in passes over the text: its length, its form by the recogniser, and then steps that know
// that the text is a tree's: refusal 3 from the counts, 4 and 5 from the symbol table.
#![tactic(auto)]

ghost use Rattle.std.specs.Prelude.{length};
ghost use Rattle.netlist.specs.Answers.{Promise};
ghost use Rattle.netlist.specs.Operations.{read};
ghost use Rattle.op_read.specs.Steps.{TreeText};

use netlist::{Answer, Refusal};
use steps::read_tables;
use text_constraints::lines::never_lines;
use text_constraints::read::{NEVER_WORDS, read_nevers};
use text_lines::counts::{limits, tally};
use text_recogniser::form;
use words_layout::limits::MAX_TEXT;
use words_refusals::refuse_if;

mod steps;

// Read of a text in form: refusal 3, and what the never lines tell; their tables are gone before the others are made.
fn read_legal(text: &[u8], block: &mut [u16]) -> Answer
    requires { TreeText text.now }
    ensures { Promise (read text.now (length block.old)) block.old result
        block.new }
{
    let lines = never_lines(text);
    let end = lines.end;
    let c = tally(&text[end..], lines.inputs, lines.count);
    limits(c)?;
    let mut masks = [0u16; NEVER_WORDS];
    let told = read_nevers(text, lines, &mut masks);
    read_tables(text, end, c, told, &masks, block)
}

// Read (1, 2, 3, 4, 5, 11): the block's words; count: words.
pub fn read(text: &[u8], block: &mut [u16]) -> Answer
    ensures { Promise (read text.now (length block.old)) block.old result
        block.new }
{
    refuse_if(MAX_TEXT < text.len(), Refusal::TextTooLong)?;
    form(text)?;
    read_legal(text, block)
}
