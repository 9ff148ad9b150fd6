// The rendering's words (SPECIFICATION 6), the unrolled block: head, input names and never lines, a copy of each
// scheduled gate, outputs at last copies.
ghost use Rattle.std.specs.Prelude.{◌≡◌, [], ◌∷◌, ◌+◌, ◌*◌, ◌≤◌, ◌<◌, length, set};
ghost use Rattle.std.proofs.lemmas.List.Edits.{sets};
ghost use Rattle.prelude.specs.Lists.{tab, joined, placed};
ghost use Rattle.netlist.specs.Limits.{max_inputs, max_nevers, max_gates, max_outputs};
ghost use Rattle.netlist.specs.StoredBlock.{gate_size, decode, encode};
ghost use Rattle.netlist.specs.Rendering.{rendering};
ghost use Rattle.unroll_emission.specs.Words.{table_after, copy_words, copy_at, EntryRoom, GateRoom, Order};
ghost use Rattle.unroll_emission.specs.Words.{CopyReady};
ghost use Rattle.unroll_emission.specs.Mapping.{shown_by};

use crate::entry::{Entry, Mapping, copy_words};
use words_layout::fill::fill_words;
use words_layout::nodes::{CONSTANT_0, Nodes, nodes_of};
use words_layout::offsets::{GATE_SIZE, INPUTS_AT, NAME_SIZE, OUTPUT_SIZE, nevers_of, outputs_of};

// Writes the head: the four counts.
fn write_header(n: usize, total: usize, k: usize, l: usize, out: &mut [u16])
    requires { (n ≤ max_inputs) × (total ≤ max_gates) × (k ≤ max_outputs) × (l ≤ max_nevers) × (4 ≤ length out.old) }
    ensures { out.new ≡ sets out.old 0 (n ∷ total ∷ k ∷ l ∷ []) }
{
    out[0] = n as u16;
    out[1] = total as u16;
    out[2] = k as u16;
    out[3] = l as u16;
}

// Writes copy `t`, which is of gate `j`, and makes it the newest of its gate.
fn copy_gate(words: &[u16], nodes: Nodes, j: usize, t: usize, newest: &mut [u16], out: &mut [u16])
    requires { (j < nodes.gates) × GateRoom words.now nodes (t + 1) newest.old out.old }
    ensures out_after { out.new ≡ sets out.old (nodes.start + gate_size * t)
        (copy_words words.now nodes j newest.old) }
    ensures newest_after { newest.new ≡ set newest.old j (nodes.inputs + t) }
{
    let mapping = Mapping {
        words,
        nodes,
        table: newest,
    };
    mapping.write_gate(j, t, out);
    newest[j] = (nodes.inputs + t) as u16;
}

// Writes the copies of the first `total` gates of `order`.
fn copy_gates(
    words: &[u16],
    nodes: Nodes,
    order: &[u16],
    total: usize,
    newest: &mut [u16],
    out: &mut [u16],
)
    requires { Order nodes.gates total order.now × GateRoom words.now nodes total newest.old out.old }
    ensures out_after { out.new ≡ sets out.old nodes.start
        (joined (tab (copy_at words.now nodes order.now newest.old) total)) }
    ensures newest_after { newest.new ≡ table_after nodes.inputs order.now newest.old total }
{
    for t in 0..total {
        copy_gate(words, nodes, order[t] as usize, t, newest, out);
    }
}

// Writes the `k` outputs, each showing the last copy of the gate that it showed.
pub fn copy_outputs(mapping: &Mapping, k: usize, out: &mut [u16], to: usize)
    requires { EntryRoom mapping.now.words.now (mapping.now.nodes.start + gate_size * mapping.now.nodes.gates)
        out.old to k }
    ensures { out.new ≡ sets out.old to (joined (tab (shown_by mapping.now) k)) }
{
    let from = mapping.nodes.start + GATE_SIZE * mapping.nodes.gates;
    for o in 0..k {
        let at = from + OUTPUT_SIZE * o;
        mapping.copy_entry(
            Entry {
                from: at,
                first: NAME_SIZE,
                last: OUTPUT_SIZE,
            },
            out,
            to + OUTPUT_SIZE * o,
        );
    }
}

// Writes the rendering of the block that `words` hold; `order` is its schedule, and `newest` is altered.
pub fn write_rendering(
    words: &[u16],
    order: &[u16],
    total: usize,
    newest: &mut [u16],
    out: &mut [u16],
)
    requires { CopyReady words.now order.now total newest.old out.old }
    ensures { out.new ≡ placed (encode (rendering (decode words.now))) out.old }
{
    let nodes = nodes_of(words);
    let k = outputs_of(words);
    write_header(nodes.inputs, total, k, nevers_of(words), out);
    // The names and the never lines.
    copy_words(words, INPUTS_AT, nodes.start - INPUTS_AT, out);
    // No gate has a copy: constant 0 stands for each.
    fill_words(newest, nodes.gates, CONSTANT_0 as u16);
    copy_gates(words, nodes, order, total, newest, out);
    let mapping = Mapping {
        words,
        nodes,
        table: newest,
    };
    copy_outputs(&mapping, k, out, nodes.start + GATE_SIZE * total);
}
