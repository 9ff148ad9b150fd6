// The steps of Read on a text that is a legal tree's and within the limits: declare names, look for repeats, resolve
// uses, write words.
ghost use Rattle.std.specs.Prelude.{◌≡◌, ℕ, length};
ghost use Rattle.std.proofs.Math.Option.{Option};
ghost use Rattle.netlist.specs.declared.Refusal.TheVariants.{DuplicateDeclaration};
ghost use Rattle.netlist.specs.Reading.{lesser};
ghost use Rattle.netlist.specs.Answers.{Promise};
ghost use Rattle.words_refusals.specs.Tests.{test_at};
ghost use Rattle.netlist.specs.Operations.{read};
ghost use Rattle.op_read.specs.Steps.{TablesReady, TermsReady, WriteReady};

use netlist::{Answer, Done, Refusal};
use text_block::put_block;
use text_constraints::NeverTold;
use text_constraints::read::NEVER_WORDS;
use text_expressions::resolve;
use text_lines::counts::Counts;
use text_names::index::INDEX_SIZE;
use text_symbols::duplicates::duplicate;
use text_symbols::table::{NAMES, declare};
use words_layout::limits::{MAX_GATES, MAX_OUTPUTS};
use words_layout::offsets::{GATE_SIZE, OUTPUT_SIZE, outputs_behind};
use words_refusals::{detail_of, test_room};

// Of two answers of refusal 4, the one with the lesser place; a test that passed is no refusal.
fn earlier_repeat(one: Result<(), Refusal>, other: Result<(), Refusal>) -> Result<(), Refusal>
    ensures { (p q : Option ℕ) → one ≡ test_at p DuplicateDeclaration → other ≡ test_at q DuplicateDeclaration
        → result ≡ test_at (lesser p q) DuplicateDeclaration }
{
    let Err(first) = one else {
        return other;
    };
    let Err(second) = other else {
        return one;
    };
    let p = detail_of(first);
    let q = detail_of(second);
    if p <= q { Err(first) } else { Err(second) }
}

// The last step of Read: refusal 11, and then the block's words.
fn finish(
    text: &[u8],
    c: Counts,
    names: &[u64; NAMES],
    masks: &[u16; NEVER_WORDS],
    gates: &[u16; GATE_SIZE * MAX_GATES],
    outputs: &[u16; OUTPUT_SIZE * MAX_OUTPUTS],
    block: &mut [u16],
) -> Answer
    requires { WriteReady text.now c names.now masks.now gates.now outputs.now }
    ensures { Promise (read text.now (length block.old)) block.old result
        block.new }
{
    let count = outputs_behind(c.inputs, c.nevers, c.gates) + OUTPUT_SIZE * c.outputs;
    test_room(block.len(), count)?;
    put_block(c, names, masks, gates, outputs, block);
    Ok(Done { count, detail: 0 })
}

// Read from the expressions on: refusal 5 behind never lines, then the words.
fn read_terms(
    text: &[u8],
    end: usize,
    c: Counts,
    names: &[u64; NAMES],
    nodes: &[u16; NAMES],
    index: &[u16; INDEX_SIZE],
    masks: &[u16; NEVER_WORDS],
    block: &mut [u16],
) -> Answer
    requires { TermsReady text.now end c names.now nodes.now index.now masks.now }
    ensures { Promise (read text.now (length block.old)) block.old result
        block.new }
{
    let mut gates = [0u16; GATE_SIZE * MAX_GATES];
    let mut outputs = [0u16; OUTPUT_SIZE * MAX_OUTPUTS];
    resolve(text, end, c, names, nodes, index, &mut gates, &mut outputs)?;
    finish(text, c, names, masks, &gates, &outputs, block)
}

// Read from the tables on: refusal 4 in never lines and elsewhere, 5 in never lines, then the rest.
pub fn read_tables(
    text: &[u8],
    end: usize,
    c: Counts,
    told: NeverTold,
    masks: &[u16; NEVER_WORDS],
    block: &mut [u16],
) -> Answer
    requires { TablesReady text.now end c told masks.now }
    ensures { Promise (read text.now (length block.old)) block.old result
        block.new }
{
    let mut names = [0u64; NAMES];
    let mut places = [0usize; NAMES];
    let mut nodes = [0u16; NAMES];
    let mut index = [0u16; INDEX_SIZE];
    declare(text, end, c, &mut names, &mut places, &mut nodes);
    let inside = told.repeat;
    earlier_repeat(inside, duplicate(c, &names, &places, &mut index))?;
    told.outside?;
    read_terms(text, end, c, &names, &nodes, &index, masks, block)
}
