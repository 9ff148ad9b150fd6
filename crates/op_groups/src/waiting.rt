// The counts of Kahn's algorithm (in-degrees): each group counts the slots of its gates that read a gate of another
// group without a number, and is ready where there is none. When a gate gets its number, the group of each slot in its
// fan-out counts one less.
ghost use Rattle.std.specs.Prelude.{◌≡◌, ◌+◌, ◌*◌, ◌<◌};
ghost use Rattle.graph_gates.specs.Graph.{slots};
ghost use Rattle.op_groups.specs.Underway.{CountedTo, AddedBelow, SlotReady, SlotsReady, SlotCounted, SlotsCounted};

use crate::ready::ReadySet;
use graph_gates::fanout::{FANOUT_WORDS, NEXT_AT};
use graph_gates::graph::GateGraph;
use graph_gates::{FIRST_GATE, SLOTS};
use words_layout::limits::MAX_GATES;

// The groups of a graph: the gate that leads each gate's group, the next gate of the group behind each, and the
// fan-out.
#[derive(Clone, Copy)]
pub struct Groups<'a> {
    pub graph: GateGraph<'a>,
    pub leaders: &'a [u16; MAX_GATES],
    pub nexts: &'a [u16; MAX_GATES],
    pub fanout: &'a [u16; FANOUT_WORDS],
}

// How many slots each group waits for, by its leader, and the leaders of the groups that are ready.
#[derive(Drop)]
pub struct InDegrees {
    pub counts: [u16; MAX_GATES],
    pub ready: ReadySet,
}

impl InDegrees {
    // Counts slot e for its gate's group, if it reads a gate of another group.
    fn count_slot(&mut self, groups: Groups<'_>, e: usize)
        requires { CountedTo groups e self.old.counts × (e < slots * groups.graph.gates) }
        ensures { CountedTo groups.entry (e + 1) self.new.counts × (self.new.ready.words ≡ self.old.ready.words) }
    {
        let place = groups.graph.words[e + e / SLOTS + 1] as usize;
        if place < FIRST_GATE {
            return;
        }
        let leader = groups.leaders[e / SLOTS] as usize;
        if groups.leaders[place - FIRST_GATE] as usize == leader {
            return;
        }
        self.counts[leader] += 1;
    }

    // Counts for each group the slots that it waits for while no gate has a number.
    pub fn count_slots(&mut self, groups: Groups<'_>)
        requires { CountedTo groups 0 self.old.counts }
        ensures { CountedTo groups.entry (slots * groups.entry.graph.gates) self.new.counts
            × (self.new.ready.words ≡ self.old.ready.words) }
    {
        for e in 0..SLOTS * groups.graph.gates {
            self.count_slot(groups, e);
        }
    }

    // Adds gate l to the ready set, if it leads a group that waits for nothing.
    fn add_ready(&mut self, groups: Groups<'_>, l: usize)
        requires { AddedBelow groups l self.old × (l < groups.graph.gates) }
        ensures { AddedBelow groups.entry (l + 1) self.new × (self.new.counts ≡ self.old.counts) }
    {
        if groups.leaders[l] as usize != l {
            return;
        }
        if self.counts[l] != 0 {
            return;
        }
        self.ready.add(l);
    }

    // Adds all groups that wait for nothing to the ready set.
    pub fn add_all_ready(&mut self, groups: Groups<'_>)
        requires { AddedBelow groups 0 self.old }
        ensures { AddedBelow groups.entry groups.entry.graph.gates self.new × (self.new.counts ≡ self.old.counts) }
    {
        for l in 0..groups.graph.gates {
            self.add_ready(groups, l);
        }
    }

    // Gate k, which slot e reads, got its number: the group of the slot's gate counts one slot less, unless it is
    // gate k's.
    fn count_down_slot(
        &mut self,
        groups: Groups<'_>,
        e: usize,
        k: usize,
        numbers: &[u16; MAX_GATES],
    )
        requires { SlotReady groups e k numbers.now self.old }
        ensures { SlotCounted groups.entry e k numbers.now self.new }
    {
        let leader = groups.leaders[e / SLOTS] as usize;
        if groups.leaders[k] as usize == leader {
            return;
        }
        let left = self.counts[leader] - 1;
        self.counts[leader] = left;
        if left == 0 {
            self.ready.add(leader);
        }
    }

    // Gate k got its number: the group of each slot in its fan-out counts one less, from the last slot down.
    pub fn count_down(&mut self, groups: Groups<'_>, k: usize, numbers: &[u16; MAX_GATES])
        requires { SlotsReady groups k numbers.now self.old }
        ensures { SlotsCounted groups.entry k numbers.now self.new }
    {
        let mut at = groups.fanout[k] as usize;
        // Each entry of the list names the next, so that no index counts them.
        while 0 < at {
            let e = at - 1;
            self.count_down_slot(groups, e, k, numbers);
            at = groups.fanout[NEXT_AT + e] as usize;
        }
    }
}
