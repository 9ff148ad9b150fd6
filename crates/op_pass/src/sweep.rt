// One sweep of a block: in a straight block, which is in topological order, it finds the settled
// values.
ghost use Rattle.std.specs.Prelude.{◌≡◌, ◌≤◌, length, get_or};
ghost use Rattle.prelude.specs.Lists.{placed};
ghost use Rattle.netlist.specs.GateTable.{gate_table};
ghost use Rattle.graph_simulation.specs.Rounded.{Unsettled, Bytes};
ghost use Rattle.op_pass.specs.Swept.{SweptIn, sweep_codes};

use graph_gates::graph::GateGraph;
use graph_gates::{FIRST_GATE, GRAPH_WORDS, PLACES, decode_gates};
use graph_simulation::gate::gate_value;
use graph_simulation::round::UNDEFINED;
use graph_simulation::table::{GATE_ENTRIES, gate_table};
use graph_simulation::values::{put_setting, take_gates};
use words_layout::block::Block;
use words_layout::offsets::gates_of;

// Evaluates each gate once, in ascending order, from the inputs and the values that this sweep has found so far.
pub fn sweep_gates(table: &[u8; GATE_ENTRIES], graph: GateGraph, values: &mut [u8; PLACES])
    requires { (table.now ≡ gate_table) × Unsettled values.old }
    ensures { SweptIn graph.entry.gates graph.entry.words.now values.old values.new }
{
    for j in 0..graph.gates {
        let found = gate_value(table, graph.words, j, values);
        values[FIRST_GATE + j] = found;
    }
}

// Writes the values of one sweep into the first bytes of `out`; gives how many gates there are.
pub fn sweep_into(block: &Block, setting: &[u8], out: &mut [u8]) -> usize
    requires { Bytes setting.now × (get_or block.now.words.now 1 0 ≤ length out.old) }
    ensures out_after { out.new ≡ placed (sweep_codes block.now.words.now setting.now) out.old }
    ensures value { result ≡ get_or block.now.words.now 1 0 }
{
    let table = gate_table();
    let mut graph = [0u16; GRAPH_WORDS];
    decode_gates(block, &mut graph);
    let mut values = [UNDEFINED; PLACES];
    put_setting(setting, &mut values);
    let m = gates_of(block.words);
    let decoded = GateGraph {
        words: &graph,
        gates: m,
    };
    sweep_gates(&table, decoded, &mut values);
    take_gates(&values, m, out);
    m
}
