// The check of what the search wrote, position by position and in linear time: the order is a permutation of the gates,
// each gate reads only gates before the end of its layer, and the positions of a loop have the same end.
ghost use Rattle.std.specs.Prelude.{◌≡◌, true, ◌≤◌, ◌<◌};
ghost use Rattle.netlist.specs.Limits.{max_gates};
ghost use Rattle.graph_gates.specs.Graph.{slots};
ghost use Rattle.graph_scc.specs.Search.{SlotBefore, Before, EndStep, Listed};

use crate::layering::Layering;
use crate::operands::slot_gate;
use graph_gates::SLOTS;
use words_layout::limits::MAX_GATES;

// Where each gate stands in the order.
pub fn find_positions(m: usize, order: &[u16; MAX_GATES], positions: &mut [u16; MAX_GATES])
    requires { m ≤ max_gates }
{
    for i in 0..m {
        let j = order[i] as usize;
        if j < MAX_GATES {
            positions[j] = i as u16;
        }
    }
}

impl<'a> Layering<'a> {
    ghost use Rattle.graph_scc.specs.Checked.{StepsAt, IsLayered};

    // Does slot `s` of gate j read no gate, or one that stands before `end`?
    fn slot_before(&self, j: usize, s: usize, end: usize) -> bool
        requires { (j < self.now.graph.gates) × (s < slots) }
        ensures { result ≡ true → SlotBefore self.now.graph.words.now self.now.positions.now j end s }
    {
        match slot_gate(self.graph, j, s) {
            Some(k) => (self.positions[k] as usize) < end,
            None => true,
        }
    }

    // Does every gate that gate j reads stand before `end`?
    fn reads_before(&self, j: usize, end: usize) -> bool
        requires { j < self.now.graph.gates }
        ensures { result ≡ true → Before self.now.graph.words.now self.now.positions.now j end }
    {
        (0..SLOTS).all(|s| self.slot_before(j, s, end))
    }

    // Does position i have an end that fits the position behind it?
    fn is_end(&self, i: usize) -> bool
        requires { i < self.now.graph.gates }
        ensures { result ≡ true → EndStep self.now.graph.gates self.now.ends.now i }
    {
        let end = self.ends[i] as usize;
        end == i
            || (i < end
                && end <= self.graph.gates
                && (end == i + 1 || self.ends[i + 1] as usize == end))
    }

    // Does gate order[i] stand at i, and gate i where `positions` says?
    fn is_listed(&self, i: usize) -> bool
        requires { i < self.now.graph.gates }
        ensures { result ≡ true → Listed self.now.graph.gates self.now.order.now self.now.positions.now i }
    {
        let j = self.order[i] as usize;
        let p = self.positions[i] as usize;
        j < self.graph.gates
            && p < self.graph.gates
            && self.positions[j] as usize == i
            && self.order[p] as usize == i
    }

    // Does position i pass: it is listed, its end fits, and its gate reads only what stands before that end?
    fn passes(&self, i: usize) -> bool
        requires { i < self.now.graph.gates }
        ensures { result ≡ true → StepsAt self.now i }
    {
        self.is_listed(i)
            && self.is_end(i)
            && self.reads_before(self.order[i] as usize, self.ends[i] as usize)
    }

    // Does every position pass, so that these are layers?
    pub fn are_layers(&self) -> bool
        ensures { result ≡ true → IsLayered self.now }
    {
        (0..self.graph.gates).all(|i| self.passes(i))
    }
}
