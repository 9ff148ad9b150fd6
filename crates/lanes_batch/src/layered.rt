// Fixpoint iteration for up to 64 settings at once, layer by layer: a gate that lies on no loop is evaluated once, a
// loop's gates until nothing in the loop changes (chaotic iteration: any order gives the least fixpoint). The batch of
// settings starts at `base`; `lanes` has two words for each place (crates/lanes_dual_rail); `order` and `ends` are the
// gates in layers (crates/graph_scc). That a batch starts at a multiple of 64 is asked of its number, as a limit is of a
// count (crates/words_layout/src/limits.rt).
ghost use Rattle.std.specs.Prelude.{◌≡◌, true, false, ◌+◌, ◌≤◌, ◌<◌, ◌%◌};
ghost use Rattle.netlist.specs.Limits.{max_inputs, max_gates};
ghost use Rattle.netlist.specs.Rendering.{is_straight};
ghost use Rattle.graph_gates.specs.Graph.{Graph, network};
ghost use Rattle.graph_gates.specs.Legal.{network_of};
ghost use Rattle.graph_scc.specs.Layers.{Layers};
ghost use Rattle.lanes_dual_rail.specs.Batches.{input_pair};
ghost use Rattle.lanes_dual_rail.specs.LaneWords.{lane_size};
ghost use Rattle.lanes_batch.specs.Batch.{place_of};
ghost use Rattle.lanes_batch.specs.Layered.{GateStored, GateEvaluated, GatesEvaluated, Part, OrderPart, part};
ghost use Rattle.lanes_batch.specs.Layered.{PartDecided, is_decided_at};
ghost use Rattle.lanes_batch.specs.Layered.{Cleared, ConstantsStarted, InputsPut, LanesStarted};
ghost use Rattle.lanes_batch.specs.Layered.{LanesFresh, LanesFixed, StraightFixed, LanesSettled};

use crate::plan::Plan;
use graph_gates::graph::{Gate, GateGraph};
use graph_gates::{FIRST_GATE, FIRST_INPUT, GRAPH_WORDS};
use lanes_dual_rail::evaluate::{gate_pair, pair_at, put_pair};
use lanes_dual_rail::inputs::{input_pair, used_lanes};
use lanes_dual_rail::{LANE_WORDS, Pair};
use words_layout::limits::MAX_GATES;

// Stores 0 in the words below `end`.
fn clear_words(end: usize, lanes: &mut [u64; LANE_WORDS])
    requires { end ≤ lane_size }
    ensures { Cleared end lanes.old lanes.new }
{
    lanes[..end].fill(0);
}

// Stores every input's pair.
fn put_inputs(n: usize, base: usize, lanes: &mut [u64; LANE_WORDS])
    requires { n ≤ max_inputs }
    ensures { InputsPut (input_pair n base) n lanes.old lanes.new }
{
    for k in 0..n {
        put_pair(lanes, FIRST_INPUT + k, input_pair(n, base, k));
    }
}

// Stores the constants' pairs at the lanes of a block of n inputs, and makes every input and every gate undefined.
pub fn start_constants(m: usize, n: usize, lanes: &mut [u64; LANE_WORDS])
    requires { m ≤ max_gates }
    ensures { ConstantsStarted m n lanes.new }
{
    clear_words(2 * (FIRST_GATE + m), lanes);
    let used = used_lanes(n);
    put_pair(
        lanes,
        0,
        Pair {
            zeros: used, // constant 0
            ones: 0,
        },
    );
    put_pair(
        lanes,
        1,
        Pair {
            zeros: 0,
            ones: used, // constant 1
        },
    );
}

// Stores the constants' pairs and every input's, and makes every gate undefined.
pub fn start_lanes(m: usize, n: usize, base: usize, lanes: &mut [u64; LANE_WORDS])
    requires { (m ≤ max_gates) × (n ≤ max_inputs) }
    ensures { LanesStarted m n base lanes.new }
{
    start_constants(m, n, lanes);
    put_inputs(n, base, lanes);
}

// Evaluates a gate and stores its pair.
fn evaluate(gate: Gate, lanes: &mut [u64; LANE_WORDS])
    ensures { GateStored gate.entry.graph.now gate.entry.number lanes.old lanes.new }
{
    let pair = gate_pair(gate, lanes);
    put_pair(lanes, FIRST_GATE + gate.number, pair);
}

// Evaluates a gate and stores its pair; tells whether it changed.
fn step(gate: Gate, lanes: &mut [u64; LANE_WORDS]) -> bool
    ensures { GateEvaluated gate.entry.graph.now gate.entry.number lanes.old lanes.new result }
{
    let pair = gate_pair(gate, lanes);
    let old = pair_at(lanes, FIRST_GATE + gate.number);
    put_pair(lanes, FIRST_GATE + gate.number, pair);
    pair != old
}

// Place `i` of a walk over `count` places, there or back. A walk turns about between sweeps, so that its direction is a
// value and no closure.
fn place_along(back: bool, count: usize, i: usize) -> usize
    requires { i < count }
    ensures { result ≡ place_of back count i }
{
    if back { count - 1 - i } else { i }
}

// Evaluates the gates at the positions from `from` to before `end`, or back from there, and stores each pair at once;
// tells whether any changed. It takes a graph's words alone, since who runs a group's passes is not told how many gates
// the graph has.
pub fn sweep_part(
    graph: &[u16; GRAPH_WORDS],
    order: &[u16; MAX_GATES],
    from: usize,
    end: usize,
    back: bool,
    lanes: &mut [u64; LANE_WORDS],
) -> bool
    requires { Part graph.now order.now from end }
    ensures { GatesEvaluated graph.now lanes.old (part back order.now from end)
        lanes.new result }
{
    let count = end - from;
    let mut changed = false;
    for i in 0..count {
        let at = from + place_along(back, count, i);
        let gate = Gate {
            graph,
            number: order[at] as usize,
        };
        changed = step(gate, lanes) | changed;
    }
    changed
}

// Is gate `j` 0 or 1 at every lane in use?
fn is_gate_decided(used: u64, j: usize, lanes: &[u64; LANE_WORDS]) -> bool
    requires { j < max_gates }
    ensures { result ≡ is_decided_at used lanes.now j }
{
    let pair = pair_at(lanes, FIRST_GATE + j);
    pair.zeros | pair.ones == used
}

// Is every gate at the positions from `from` to before `end` 0 or 1 at every lane in use? Then none of them can change
// any more.
fn is_decided(
    used: u64,
    order: &[u16; MAX_GATES],
    from: usize,
    end: usize,
    lanes: &[u64; LANE_WORDS],
) -> bool
    requires { OrderPart max_gates order.now from end }
    ensures { result ≡ true → PartDecided used order.now from end lanes.now }
{
    order[from..end]
        .iter()
        .all(|&j| is_gate_decided(used, j as usize, lanes))
}

// A block's plan: its graph, the gates in the order of evaluation and where the layer of each position ends; and how
// many inputs the block has.
#[derive(Clone, Copy)]
struct Circuit<'a> {
    graph: GateGraph<'a>,
    order: &'a [u16; MAX_GATES],
    ends: &'a [u16; MAX_GATES],
    inputs: usize,
}

impl<'a> Circuit<'a> {
    ghost use Rattle.lanes_batch.specs.Circuit.{IsUnderway, room_of, HasPart, Advanced};
    ghost use Rattle.lanes_batch.specs.Circuit.{InLayers, CircuitReached, CircuitSettled};

    // One sweep over a loop; tells whether nothing in it can change any more, since nothing changed or every lane is
    // decided.
    fn sweep_decides(
        &self,
        from: usize,
        end: usize,
        back: bool,
        lanes: &mut [u64; LANE_WORDS],
    ) -> bool
        requires { HasPart self.now from end × IsUnderway self.now lanes.old }
        ensures part_advanced { Advanced self.now from end lanes.old lanes.new result }
        ensures lanes_bound { result ≡ false → room_of self.now lanes.new < room_of self.now lanes.old }
    {
        if !sweep_part(self.graph.words, self.order, from, end, back, lanes) {
            return true;
        }
        is_decided(used_lanes(self.inputs), self.order, from, end, lanes)
    }

    // Sweeps over a loop until nothing in it can change any more: twice along its order, since an order that enters a
    // loop at the wrong gate is right from the second sweep on, and then back and along by turns, since a value that
    // runs against the order gets through in one sweep back.
    fn settle_loop(&self, from: usize, end: usize, lanes: &mut [u64; LANE_WORDS])
        requires { HasPart self.now from end × IsUnderway self.now lanes.old }
        ensures { Advanced self.now from end lanes.old lanes.new true }
    {
        let mut back = false;
        let mut first = true;
        // How many sweeps there are is known once one changes nothing.
        while !self.sweep_decides(from, end, back, lanes) {
            back = !back & !first;
            first = false;
        }
    }

    // Settles the layer that starts at position `i`, and if that is a gate on no loop, all such gates up to the next
    // loop; gives the position at which the next layer starts.
    fn settle_run(&self, i: usize, lanes: &mut [u64; LANE_WORDS]) -> usize
        requires { InLayers self.now × (i < self.now.graph.gates) × CircuitReached self.now i lanes.old }
        ensures { CircuitSettled self.now i lanes.old lanes.new result }
    {
        let end = self.ends[i] as usize;
        if end != i {
            self.settle_loop(i, end, lanes);
            return end;
        }
        for k in i..self.graph.gates {
            if self.ends[k] as usize != k {
                return k;
            }
            evaluate(self.graph.gate(self.order[k] as usize), lanes);
        }
        self.graph.gates
    }
}

// Settles started lanes layer by layer, whatever the values of their inputs are.
pub fn settle_layers(plan: &Plan, m: usize, n: usize, lanes: &mut [u64; LANE_WORDS])
    requires { Graph m plan.now.graph × Layers m plan.now.graph plan.now.order plan.now.ends × LanesFresh m n lanes.old }
    ensures { LanesFixed (network m plan.now.graph) n lanes.old lanes.new }
{
    let circuit = Circuit {
        graph: GateGraph {
            words: &plan.graph,
            gates: m,
        },
        order: &plan.order,
        ends: &plan.ends,
        inputs: n,
    };
    let mut i = 0;
    // No `for`: each turn goes on where the layers that it settled end.
    while i < m {
        i = circuit.settle_run(i, lanes);
    }
}

// Settles started lanes of a straight block: its gates, each of which reads only gates before it, are evaluated once,
// as they come.
pub fn settle_straight(graph: GateGraph, lanes: &mut [u64; LANE_WORDS])
    requires { is_straight (network_of graph) ≡ true }
    ensures { StraightFixed graph.entry.gates graph.entry.words.now lanes.old lanes.new }
{
    for j in 0..graph.gates {
        evaluate(graph.gate(j), lanes);
    }
}

// Finds the settled values of the batch at every lane.
pub fn decide_batch(plan: &Plan, m: usize, n: usize, base: usize, lanes: &mut [u64; LANE_WORDS])
    requires graph { Graph m plan.now.graph × Layers m plan.now.graph plan.now.order plan.now.ends }
    requires n_le_max_inputs { (n ≤ max_inputs) × (base % 64 ≡ 0) }
    ensures { LanesSettled (network m plan.now.graph) n base lanes.new }
{
    start_lanes(m, n, base, lanes);
    settle_layers(plan, m, n, lanes);
}

// Finds the settled values of a straight block's batch. One function with `decide_batch` would be no plainer: a closure
// that settles would stand for one call, and its contract for both of these.
pub fn decide_straight(graph: GateGraph, n: usize, base: usize, lanes: &mut [u64; LANE_WORDS])
    requires straight { is_straight (network_of graph) ≡ true }
    requires n_le_max_inputs { (n ≤ max_inputs) × (base % 64 ≡ 0) }
    ensures { LanesSettled (network_of graph.entry) n base lanes.new }
{
    start_lanes(graph.gates, n, base, lanes);
    settle_straight(graph, lanes);
}
