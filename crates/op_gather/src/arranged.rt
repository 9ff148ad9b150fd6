// A block's words written with its gates permuted, after all tests have passed. Gather and Scatter both call it.
ghost use Rattle.std.specs.Prelude.{◌≡◌, ◌+◌, ◌≤◌, length};
ghost use Rattle.std.proofs.lemmas.List.Edits.{sets};
ghost use Rattle.prelude.specs.Lists.{tab, joined, placed};
ghost use Rattle.netlist.specs.StoredBlock.{encode};
ghost use Rattle.words_layout.specs.Bounds.{node_room};
ghost use Rattle.unroll_emission.specs.Words.{Order};
ghost use Rattle.unroll_emission.specs.Mapping.{CopyRoom};
ghost use Rattle.op_gather.specs.Arranging.{new_word, moved_at, arrangement, ArrangeReady};

use unroll_emission::entry::{Mapping, copy_words};
use unroll_emission::rendered::copy_outputs;
use words_layout::nodes::{Nodes, nodes_of};
use words_layout::offsets::{GATE_SIZE, outputs_of};

// The word that stands for each gate under its new number.
fn fill_table(nodes: Nodes, numbers: &[u16], table: &mut [u16])
    requires { (nodes.inputs + nodes.gates ≤ node_room) × Order nodes.gates nodes.gates numbers.now
        × (nodes.gates ≤ length table.old) }
    ensures { table.new
        ≡ placed (tab (new_word nodes.inputs numbers.now) nodes.gates) table.old }
{
    for j in 0..nodes.gates {
        table[j] = (nodes.inputs + numbers[j] as usize) as u16;
    }
}

// Writes the gates in the order listed, their operands renumbered.
fn move_gates(mapping: &Mapping, order: &[u16], out: &mut [u16])
    requires { Order mapping.now.nodes.gates mapping.now.nodes.gates order.now
        × CopyRoom mapping.now mapping.now.nodes.gates out.old }
    ensures { out.new ≡ sets out.old mapping.now.nodes.start
        (joined (tab (moved_at mapping.now.words.now mapping.now.nodes order.now mapping.now.table.now)
        mapping.now.nodes.gates)) }
{
    for t in 0..mapping.nodes.gates {
        mapping.write_gate(order[t] as usize, t, out);
    }
}

// Writes the block with its gates in the order listed, where gate j then has number `numbers[j]`.
pub fn write_arranged(
    words: &[u16],
    order: &[u16],
    numbers: &[u16],
    table: &mut [u16],
    out: &mut [u16],
)
    requires { ArrangeReady words.now order.now numbers.now table.old out.old }
    ensures { out.new ≡ placed
        (encode (arrangement words.now order.now numbers.now))
        out.old }
{
    let nodes = nodes_of(words);
    let outputs = nodes.start + GATE_SIZE * nodes.gates;
    fill_table(nodes, numbers, table);
    // The counts, the names and the never lines.
    copy_words(words, 0, nodes.start, out);
    let mapping = Mapping {
        words,
        nodes,
        table,
    };
    move_gates(&mapping, order, out);
    copy_outputs(&mapping, outputs_of(words), out, outputs);
}
