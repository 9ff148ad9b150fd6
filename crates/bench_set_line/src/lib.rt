// The answer to one line of the bench, for a block that is prepared: the line's form (2, `form`), its pairs against the
// block's inputs (4 and 5, crates/text_pairs), and the show line (11, `show`), or the refusal.
#![tactic(auto)]

ghost use Rattle.std.specs.Prelude.{List, length};
ghost use Rattle.netlist.specs.Answers.{Promise};
ghost use Rattle.netlist.specs.Syntax.{Pair};
ghost use Rattle.netlist.specs.Bench.{answer_line};
ghost use Rattle.graph_simulation.specs.Rounded.{Blank};
ghost use Rattle.bench_set_line.specs.Shown.{BlockReady};
ghost use Rattle.bench_set_line.specs.Tables.{LineFor, InForm, TablesFor, LineRead};

use crate::form::test_set_line;
use graph_gates::fanout::FANOUT_WORDS;
use graph_gates::graph::GateGraph;
use graph_gates::{GRAPH_WORDS, PLACES};
use graph_simulation::changes::PreparedBlock;
use graph_simulation::round::{UNDEFINED, settle_prepared};
use graph_simulation::table::GATE_ENTRIES;
use graph_simulation::values::put_setting;
use inputs::fill_inputs;
use netlist::{Answer, Refusal};
use show::show_settled;
use text_pairs::given::{fill_setting, test_outside, test_repeat};
use text_pairs::tables::fill_pairs;
use words_layout::block::Block;
use words_layout::limits::MAX_INPUTS;
use words_layout::offsets::{gates_of, inputs_of};

mod form;
mod inputs;
mod show;

// The bytes of `(set`, behind which the pairs stand.
const PAIRS_AT: usize = 4;

// The tables of a line: the number of each pair's name, its place and its value's code, how many pairs there are, and
// the number of each input's name.
#[derive(Drop)]
struct LineTables {
    names: [u64; MAX_INPUTS],
    places: [usize; MAX_INPUTS],
    codes: [u8; MAX_INPUTS],
    count: usize,
    inputs: [u64; MAX_INPUTS],
}

// The tables of a line in form.
fn fill_tables(words: &[u16], line: &[u8]) -> LineTables
    requires { InForm words.now line.now }
    ensures { (ps : List Pair) → LineFor words.now ps line.now → TablesFor words.now ps result }
{
    let mut names = [0u64; MAX_INPUTS];
    let mut places = [0usize; MAX_INPUTS];
    let mut codes = [0u8; MAX_INPUTS];
    let mut inputs = [0u64; MAX_INPUTS];
    let count = fill_pairs(line, PAIRS_AT, &mut names, &mut places, &mut codes);
    fill_inputs(words, inputs_of(words), &mut inputs);
    LineTables {
        names,
        places,
        codes,
        count,
        inputs,
    }
}

// Reads the pairs of a line in form: refusals 4 and 5, and then what the line gives the inputs, in an array of values
// where nothing has one.
fn read_pairs(words: &[u16], line: &[u8], values: &mut [u8; PLACES]) -> Result<(), Refusal>
    requires { InForm words.now line.now × Blank values.old }
    ensures { (ps : List Pair) → LineFor words.now ps line.now
        → LineRead words.now ps result values.new }
{
    let n = inputs_of(words);
    let t = fill_tables(words, line);
    let names = &t.names[..t.count];
    let inputs = &t.inputs[..n];
    test_repeat(names, &t.places)?;
    test_outside(names, &t.places, inputs)?;
    let mut setting = [0u8; MAX_INPUTS];
    fill_setting(names, &t.codes, inputs, &mut setting);
    put_setting(&setting[..n], values);
    Ok(())
}

// The answer to a line, with its LF, for a block that is prepared. Count: bytes of the show line.
pub fn answer_line<'a>(
    block: &Block,
    table: &'a [u8; GATE_ENTRIES],
    graph: &'a [u16; GRAPH_WORDS],
    fanout: &'a [u16; FANOUT_WORDS],
    line: &[u8],
    out: &mut [u8],
) -> Answer
    requires { BlockReady block.now.words.now table.now graph.now fanout.now }
    ensures { Promise (answer_line block.now.words.now line.now (length out.old))
        out.old result out.new }
{
    test_set_line(line, inputs_of(block.words))?;
    let mut values = [UNDEFINED; PLACES];
    read_pairs(block.words, line, &mut values)?;
    let prepared = PreparedBlock {
        table,
        graph: GateGraph {
            words: graph,
            gates: gates_of(block.words),
        },
        fanout,
    };
    settle_prepared(prepared, &mut values);
    show_settled(block, &values, out)
}
