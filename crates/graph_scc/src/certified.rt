// The certificate that layers are strongly connected components, checked in linear time. Of every position but a
// layer's last, the search noted a parent behind it in its layer, which reads its gate, and a low link, by which its
// gate reads one of the layer that is nearer to the last. So the last gate reaches every gate of its layer, and is
// reached by it.
ghost use Rattle.std.specs.Prelude.{◌≡◌, true, ◌≤◌, ◌<◌, get_or};
ghost use Rattle.netlist.specs.Limits.{max_gates};
ghost use Rattle.netlist.specs.Groups.{reads};
ghost use Rattle.words_layout.specs.Bounds.{max_word};
ghost use Rattle.graph_gates.specs.Legal.{network_of};
ghost use Rattle.graph_scc.specs.Leaders.{last_of, distance_at};

use crate::layering::Layering;
use crate::notes::{CURSORS, LOWEST, NOTE_SIZE, PARENT};
use crate::operands::slot_gate;
use graph_gates::{FIRST_GATE, SLOTS};

// The number of values that a word has.
const WORD_VALUES: usize = 65536;

// That the layering is one of layers is asked of four methods. A type for a layering that has passed its check would be
// made in one place, and put its arrays one field further from these methods.
impl<'a> Layering<'a> {
    ghost use Rattle.graph_scc.specs.Checked.{IsLayered, HasParentAt, HasLowLinkAt, IsCertifiedAt, IsCertified};

    // The last position of position i's layer.
    pub fn last_of(&self, i: usize) -> usize
        requires { i < max_gates }
        ensures { (result ≡ last_of self.now.ends.now i) × (result ≤ max_word) }
    {
        let end = self.ends[i] as usize;
        if end == i { i } else { end.saturating_sub(1) }
    }

    // How far position i is from its layer's last, as the search noted it.
    fn distance_at(&self, i: usize) -> usize
        requires { (i < self.now.graph.gates) × (get_or self.now.order.now i 0 < self.now.graph.gates) }
        ensures { result ≡ distance_at self.now.order.now self.now.notes.now i }
    {
        let k = self.order[i] as usize;
        WORD_VALUES * (self.notes[NOTE_SIZE * k + LOWEST] as usize / CURSORS) + i
    }

    // Does gate `from` read gate `to` by slot `slot`?
    fn has_slot(&self, from: usize, slot: usize, to: usize) -> bool
        requires { (from < self.now.graph.gates) × (to < self.now.graph.gates) }
        ensures { result ≡ true → reads (network_of self.now.graph) from to ≡ true }
    {
        slot < SLOTS && self.graph.gate(from).place(slot) == FIRST_GATE + to
    }

    // Does the gate from which the search entered the gate at position i read it, and stand behind it in its layer?
    fn has_parent(&self, i: usize) -> bool
        requires { IsLayered self.now × (i < self.now.graph.gates) }
        ensures { result ≡ true → HasParentAt self.now i }
    {
        let k = self.order[i] as usize;
        let parent = self.notes[NOTE_SIZE * k + PARENT] as usize;
        let from = parent / CURSORS;
        if self.graph.gates <= from {
            return false;
        }
        let at = self.positions[from] as usize;
        i < at && at <= self.last_of(i) && self.has_slot(from, parent % CURSORS, k)
    }

    // Does the operand that the low link names lead from position i to one of its layer that is nearer to the layer's
    // last?
    fn has_low_link(&self, i: usize) -> bool
        requires { IsLayered self.now × (i < self.now.graph.gates) }
        ensures { result ≡ true → HasLowLinkAt self.now i }
    {
        let k = self.order[i] as usize;
        let slot = self.notes[NOTE_SIZE * k + LOWEST] as usize % CURSORS;
        if SLOTS <= slot {
            return false;
        }
        let Some(j) = slot_gate(self.graph, k, slot) else {
            return false;
        };
        let to = self.positions[j] as usize;
        self.last_of(to) == self.last_of(i) && self.distance_at(to) < self.distance_at(i)
    }

    // Does the certificate hold at position i: is it its layer's last, or has it a parent and a low link in its layer?
    fn is_certified_at(&self, i: usize) -> bool
        requires { IsLayered self.now × (i < self.now.graph.gates) }
        ensures { result ≡ true → IsCertifiedAt self.now i }
    {
        self.last_of(i) == i || (self.has_parent(i) && self.has_low_link(i))
    }

    // Does the certificate hold at every position, so that the layers are the strongly connected components?
    pub fn are_certified(&self) -> bool
        requires { IsLayered self.now }
        ensures { result ≡ true → IsCertified self.now }
    {
        (0..self.graph.gates).all(|i| self.is_certified_at(i))
    }
}
