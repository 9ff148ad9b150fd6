// One gate evaluated in three-valued logic by table lookup: the codes of its operands, read from the values at their
// places, are the index of one entry in the table of all gates.
ghost use Rattle.std.specs.Prelude.{◌≡◌, ◌≤◌, ◌<◌};
ghost use Rattle.prelude.specs.Lists.{tab};
ghost use Rattle.netlist.specs.GateTable.{operand_code, gate_table};
ghost use Rattle.graph_gates.specs.Graph.{slots};
ghost use Rattle.graph_simulation.specs.State.{Coded, LegalGate, slot_value, gate_code};

use crate::table::{ABSENT, GATE_ENTRIES};
use graph_gates::{GRAPH_WORDS, NODE_SIZE, PLACES};

// The code of operand `i` of gate `j`, which has `count` operands.
fn operand_code(
    graph: &[u16; GRAPH_WORDS],
    j: usize,
    count: usize,
    i: usize,
    values: &[u8; PLACES],
) -> usize
    requires { LegalGate graph.now j × Coded values.now × (i < slots) }
    ensures { (result ≡ operand_code (tab (slot_value graph.now values.now j) count) i) × (result ≤ 3) }
{
    if i < count {
        let place = graph[NODE_SIZE * j + 1 + i] as usize;
        values[place] as usize
    } else {
        ABSENT
    }
}

// The value of gate `j`: the table's entry for its kind and its operands' codes.
pub fn gate_value(
    table: &[u8; GATE_ENTRIES],
    graph: &[u16; GRAPH_WORDS],
    j: usize,
    values: &[u8; PLACES],
) -> u8
    requires table_value { table.now ≡ gate_table }
    requires legal_gate { LegalGate graph.now j × Coded values.now }
    ensures { result ≡ gate_code graph.now values.now j }
{
    let operation = graph[NODE_SIZE * j] as usize;
    let count = operation / 8 % 8;
    let a = operand_code(graph, j, count, 0, values);
    let b = operand_code(graph, j, count, 1, values);
    let c = operand_code(graph, j, count, 2, values);
    let d = operand_code(graph, j, count, 3, values);
    table[256 * (operation % 8) + a + 4 * b + 16 * c + 64 * d]
}
