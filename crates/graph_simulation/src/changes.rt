// Event-driven simulation (Ulrich, "Exclusive simulation of activity in digital networks", 1969): one round from the
// gates that changed in the round before, as only their fan-out can change. `values` has the codes before the round, by
// place, `found` gets the codes of the gates after it, and every gate that changes is put in the queue. A gate that is
// 0 or 1 keeps its value, as gates are monotone, and is not evaluated again.
ghost use Rattle.std.specs.Prelude.{◌≡◌, ◌≤◌, ◌<◌};
ghost use Rattle.netlist.specs.GateTable.{gate_table};
ghost use Rattle.graph_gates.specs.Fanout.{Fanout};
ghost use Rattle.graph_simulation.specs.Changes.{Pending, Copied, CopyReady, Round, Turned, ListReady};

use crate::gate::gate_value;
use crate::round::UNDEFINED;
use crate::table::GATE_ENTRIES;
use graph_gates::fanout::{FANOUT_WORDS, NEXT_AT};
use graph_gates::graph::GateGraph;
use graph_gates::{FIRST_GATE, PLACES, SLOTS};
use words_layout::limits::MAX_GATES;

// A block prepared for simulation: the table of all gates, the graph of its gates, and their fan-out.
#[derive(Clone, Copy)]
pub struct PreparedBlock<'a> {
    pub table: &'a [u8; GATE_ENTRIES],
    pub graph: GateGraph<'a>,
    pub fanout: &'a [u16; FANOUT_WORDS],
    ghost tabled: { table.now ≡ gate_table },
    ghost linked: { ∥ Fanout graph.gates graph.words.now fanout.now ∥₁ },
}

// The code that the rounds have found for each gate, and the gates that they changed, in order: the first `end` of the
// queue. What it is to the values is asked of each method and no ghost field: it holds of one array of values and for
// one round.
#[derive(Drop)]
pub struct Found {
    pub codes: [u8; MAX_GATES],
    pub queue: [u16; MAX_GATES],
    pub end: usize,
}

impl Found {
    ghost use Rattle.graph_simulation.specs.Found.{MayUpdate, OneUpdated, ListUpdated, AllUpdated};

    // Evaluates gate `j`, if it has no value, and queues it if it gets one.
    fn update(&mut self, block: PreparedBlock<'_>, j: usize, values: &[u8; PLACES])
        requires { MayUpdate block values.now self.old × (j < block.graph.gates) }
        ensures { OneUpdated block.entry values.now j self.old self.new }
    {
        if self.codes[j] != UNDEFINED {
            return;
        }
        let value = gate_value(block.table, block.graph.words, j, values);
        if value == UNDEFINED {
            return;
        }
        self.codes[j] = value;
        self.queue[self.end] = j as u16;
        self.end += 1;
    }

    // Evaluates every gate without a value, and queues those that get one.
    pub fn update_all(&mut self, block: PreparedBlock<'_>, values: &[u8; PLACES])
        requires { MayUpdate block values.now self.old }
        ensures { AllUpdated block.entry values.now self.old self.new }
    {
        for j in 0..block.graph.gates {
            self.update(block, j, values);
        }
    }

    // Evaluates the gates of one list of the fan-out, which starts at `from`, and queues those that get a value.
    fn update_fanout(&mut self, block: PreparedBlock<'_>, from: usize, values: &[u8; PLACES])
        requires { MayUpdate block values.now self.old × ListReady block.graph.gates block.fanout.now from }
        ensures { ListUpdated block.entry values.now from self.old self.new }
    {
        let mut p = from;
        // Each entry of the list names the next, so that no index counts them.
        while let Some(e) = p.checked_sub(1) {
            self.update(block, e / SLOTS, values);
            p = block.fanout[NEXT_AT + e] as usize;
        }
    }

    // Evaluates the fan-out of the gates that the round before changed, queued from `head` on, and queues those that
    // get a value.
    fn update_changed(&mut self, block: PreparedBlock<'_>, head: usize, values: &[u8; PLACES])
        requires update_ready { MayUpdate block values.now self.old × (head ≤ self.old.end) }
        requires copy_ready { CopyReady self.old.queue self.old.end values.now }
        requires pending { Pending block.graph.gates block.graph.words.now values.now self.old.codes self.old.queue head self.old.end }
        ensures { AllUpdated block.entry values.now self.old self.new }
    {
        for q in head..self.end {
            let k = self.queue[q] as usize;
            self.update_fanout(block, block.fanout[k] as usize, values);
        }
    }

    // Puts the values of the gates that the round before changed, queued from `head` on, at their places.
    fn copy_changed(&self, head: usize, values: &mut [u8; PLACES])
        requires { CopyReady self.now.queue self.now.end values.old × (head ≤ self.now.end) }
        ensures { Copied self.now.codes self.now.queue head self.now.end values.old values.new }
    {
        for &k in &self.queue[head..self.end] {
            let k = k as usize;
            values[FIRST_GATE + k] = self.codes[k];
        }
    }

    // One round more, from what the round before changed, which is queued from `head` on; what this round changes is
    // queued behind that.
    pub fn next_round(&mut self, block: PreparedBlock<'_>, head: usize, values: &mut [u8; PLACES])
        requires { Round block.graph.gates block.graph.words.now values.old self.old.codes self.old.queue head self.old.end }
        ensures { Turned block.entry.graph.gates block.entry.graph.words.now values.old values.new self.new.codes self.new.queue
            self.old.end self.new.end }
    {
        self.copy_changed(head, values);
        self.update_changed(block, head, values);
    }
}
