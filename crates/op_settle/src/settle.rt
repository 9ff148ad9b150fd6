// Settle (SPECIFICATION 7.5): the least fixpoint of a block under one setting, by event-driven simulation.
ghost use Rattle.std.specs.Prelude.{◌≤◌, length, get_or};
ghost use Rattle.netlist.specs.Answers.{Promise};
ghost use Rattle.netlist.specs.Operations.{settle};
ghost use Rattle.graph_simulation.specs.Rounded.{Bytes};
ghost use Rattle.op_settle.specs.Settled.{Settled};

use crate::setting::test_setting;
use graph_gates::fanout::FANOUT_WORDS;
use graph_gates::graph::GateGraph;
use graph_gates::{GRAPH_WORDS, PLACES};
use graph_simulation::changes::PreparedBlock;
use graph_simulation::round::{UNDEFINED, prepare, settle_prepared};
use graph_simulation::table::gate_table;
use graph_simulation::values::{put_setting, take_gates};
use netlist::{Answer, Done};
use words_block::check_words;
use words_layout::block::Block;
use words_layout::offsets::gates_of;
use words_refusals::test_room;

// Writes the settled values into the first bytes of `out`; gives how many rounds change something.
fn settle_into(block: &Block, setting: &[u8], out: &mut [u8]) -> usize
    requires { Bytes setting.now × (get_or block.now.words.now 1 0 ≤ length out.old) }
    ensures { Settled block.now.words.now setting.now out.old out.new result }
{
    let table = gate_table();
    let mut graph = [0u16; GRAPH_WORDS];
    let mut fanout = [0u16; FANOUT_WORDS];
    prepare(block, &mut graph, &mut fanout);
    let mut values = [UNDEFINED; PLACES];
    put_setting(setting, &mut values);
    let prepared = PreparedBlock {
        table: &table,
        graph: GateGraph {
            words: &graph,
            gates: gates_of(block.words),
        },
        fanout: &fanout,
    };
    let count = settle_prepared(prepared, &mut values);
    take_gates(&values, prepared.graph.gates, out);
    count
}

// Settle (6, 7, 11): the settled value of each gate, a byte each, from a byte for each input: 0, 1 or 2; count: rounds.
pub fn settle(words: &[u16], setting: &[u8], values: &mut [u8]) -> Answer
    ensures { Promise (settle words.now setting.now (length values.old))
        values.old result values.new }
{
    let block = check_words(words)?;
    test_setting(words, setting)?;
    test_room(values.len(), gates_of(words))?;
    let count = settle_into(&block, setting, values);
    Ok(Done { count, detail: 0 })
}
