// Tarjan's depth-first search along operands ("Depth-first search and linear graph algorithms", 1972), without
// recursion: each turn takes one slot or leaves one gate. It writes the gates component after component, each behind
// the components that it reads, and the gates of a component in the order in which the search left them. Nothing is
// promised of what it writes but that it ends in bounds: `check` tells whether it is right.
ghost use Rattle.std.specs.Prelude.{◌≡◌, true, ◌+◌, ◌*◌, ◌%◌, ◌≤◌, ◌<◌};
ghost use Rattle.netlist.specs.Limits.{max_gates};
ghost use Rattle.words_layout.specs.Bounds.{max_word};
ghost use Rattle.graph_gates.specs.Graph.{slots};
ghost use Rattle.graph_scc.specs.Search.{clock_end, StandingReady, LeftOne};

use crate::notes::{CLOSED, CURSORS, ENTERED, LOWEST, NOTE_SIZE, NOTES, NOWHERE, PARENT};
use graph_gates::graph::GateGraph;
use graph_gates::{FIRST_GATE, GRAPH_WORDS, NODE_SIZE, PLACES, SLOTS};
use words_layout::limits::MAX_GATES;

// The clock's end, above the number of turns: four slots and a leaving a gate, and an entering. CURSORS * CLOCK is a
// word.
const CLOCK: usize = 8191;

// Where the search stands: the clock's time, the slot that it is at, how many gates wait on the stack, and how many are
// written. That the stack has room is asked of each step: as a ghost field it would be owed after each push, too.
#[derive(Clone, Copy)]
struct Standing {
    time: usize,
    cursor: usize,
    top: usize,
    count: usize,
}

// The arrays of a search: what it notes of each gate, the gates that wait, and the order and the ends that it writes.
#[derive(Drop)]
struct Search<'a> {
    notes: &'a mut [u16; NOTES],
    stack: &'a mut [u16; MAX_GATES],
    order: &'a mut [u16; MAX_GATES],
    ends: &'a mut [u16; MAX_GATES],
}

// Does gate k read itself?
fn is_own_operand(graph: &[u16; GRAPH_WORDS], k: usize) -> bool
    requires { k < max_gates }
{
    let at = NODE_SIZE * k + 1;
    let place = FIRST_GATE + k;
    (0..SLOTS).any(|s| graph[at + s] as usize == place)
}

// The end of the layer whose last gate is gate k, at `last`: a gate alone that does not read itself is no loop.
fn layer_end(graph: &[u16; GRAPH_WORDS], k: usize, alone: bool, last: usize) -> usize
    requires { (k < max_gates) × (last ≤ clock_end) }
    ensures { result ≤ last + 1 }
{
    if alone && !is_own_operand(graph, k) {
        return last;
    }
    last + 1
}

// How high the stack is below the gates that were entered after `time`.
fn component_start(time: usize, top: usize, notes: &[u16; NOTES], stack: &[u16; MAX_GATES]) -> usize
    requires { top ≤ max_gates }
    ensures { result ≤ top }
{
    for i in (0..top).rev() {
        let k = stack[i] as usize;
        if MAX_GATES <= k || notes[NOTE_SIZE * k + ENTERED] as usize <= time {
            return i + 1;
        }
    }
    0
}

impl<'a> Search<'a> {
    // Enters gate k from a slot.
    fn enter(&mut self, k: usize, caller: usize, time: usize)
        requires { (k < max_gates) × (caller ≤ max_word) × (time ≤ clock_end) }
    {
        let at = NOTE_SIZE * k;
        self.notes[at + ENTERED] = time as u16;
        self.notes[at + LOWEST] = (CURSORS * time) as u16;
        self.notes[at + PARENT] = caller as u16;
    }

    // Notes that the cursor's gate reaches a time through the cursor's slot.
    fn lower(&mut self, cursor: usize, time: usize) {
        let k = cursor / CURSORS;
        if k < MAX_GATES {
            let at = NOTE_SIZE * k + LOWEST;
            if time < self.notes[at] as usize / CURSORS {
                self.notes[at] = (CURSORS * time + cursor % CURSORS) as u16;
            }
        }
    }

    // Writes gate k as the next one of the order.
    fn write_gate(&mut self, k: usize, end: usize, at: usize)
        requires { (end ≤ max_word) × (k ≤ max_word) }
    {
        if k < MAX_GATES && at < MAX_GATES {
            self.notes[NOTE_SIZE * k + ENTERED] = CLOSED as u16;
            self.order[at] = k as u16;
            self.ends[at] = end as u16;
        }
    }

    // Writes the gates of the stack from `start` on; their component ends at `end`.
    fn write_component(&mut self, start: usize, end: usize, standing: Standing)
        requires { (start ≤ standing.top) × (standing.top ≤ max_gates) × (standing.count ≤ clock_end)
            × (end ≤ max_word) }
    {
        for i in start..standing.top {
            let k = self.stack[i] as usize;
            self.write_gate(k, end, standing.count + (i - start));
        }
    }

    // Gate k reaches no gate that was entered before it, so that it is the root of a component: the gates that were
    // entered after it and wait on the stack, and gate k itself.
    fn close_component(
        &mut self,
        graph: &[u16; GRAPH_WORDS],
        k: usize,
        standing: Standing,
    ) -> Standing
        requires { (k < max_gates) × (standing.top ≤ max_gates) × (standing.count + standing.top < clock_end) }
        ensures { LeftOne standing.top standing.count result.top result.count }
    {
        let at = NOTE_SIZE * k;
        let entered = self.notes[at + ENTERED] as usize;
        let start = component_start(entered, standing.top, self.notes, self.stack);
        let last = standing.count + (standing.top - start);
        let end = layer_end(graph, k, start == standing.top, last);
        self.write_component(start, end, standing);
        self.write_gate(k, end, last);
        self.notes[at + LOWEST] = 0;
        Standing {
            top: start,
            count: last + 1,
            ..standing
        }
    }

    // Puts gate k on the stack, where it waits until its component is complete.
    fn push(&mut self, k: usize, standing: Standing) -> Standing
        requires { (k < max_gates) × (standing.top ≤ max_gates) }
        ensures { LeftOne standing.top standing.count result.top result.count }
    {
        let top = standing.top;
        if MAX_GATES <= top {
            return standing;
        }
        self.stack[top] = k as u16;
        Standing {
            top: top + 1,
            ..standing
        }
    }

    // Leaves gate k: its component is complete, or its parent reaches what gate k reaches.
    fn leave(&mut self, graph: &[u16; GRAPH_WORDS], k: usize, standing: Standing) -> Standing
        requires { (k < max_gates) × (standing.top ≤ max_gates) × (standing.count + standing.top < clock_end) }
        ensures { LeftOne standing.top standing.count result.top result.count }
    {
        let at = NOTE_SIZE * k;
        let lowest = self.notes[at + LOWEST] as usize / CURSORS;
        if lowest == self.notes[at + ENTERED] as usize {
            return self.close_component(graph, k, standing);
        }
        self.lower(self.notes[at + PARENT] as usize, lowest);
        self.push(k, standing)
    }

    // Takes a slot: enters the gate that it reads, or notes when that gate was entered. Gives the next slot to take.
    fn take_slot(&mut self, graph: &[u16; GRAPH_WORDS], cursor: usize, time: usize) -> usize
        requires { (cursor < 8 * max_gates) × (cursor % 8 < slots) × (time ≤ clock_end) }
        ensures { result ≤ 8 * max_gates }
    {
        let place = graph[NODE_SIZE * (cursor / CURSORS) + 1 + cursor % CURSORS] as usize;
        if place < FIRST_GATE || PLACES <= place {
            return cursor + 1;
        }
        let k = place - FIRST_GATE;
        let entered = self.notes[NOTE_SIZE * k + ENTERED] as usize;
        if entered == 0 {
            self.enter(k, cursor, time);
            return CURSORS * k;
        }
        self.lower(cursor, entered);
        cursor + 1
    }

    // One turn: takes the cursor's slot, or leaves the cursor's gate behind its last one.
    fn turn(&mut self, graph: &[u16; GRAPH_WORDS], standing: Standing) -> Standing
        requires { StandingReady standing.time standing.top standing.count × (standing.cursor < 8 * max_gates)
            × (standing.time < clock_end) }
        ensures { StandingReady result.time result.top result.count × (result.time ≡ standing.time + 1) }
    {
        let cursor = standing.cursor;
        let time = standing.time + 1;
        if cursor % CURSORS < SLOTS {
            return Standing {
                time,
                cursor: self.take_slot(graph, cursor, time),
                ..standing
            };
        }
        let k = cursor / CURSORS;
        let caller = self.notes[NOTE_SIZE * k + PARENT] as usize;
        let left = self.leave(graph, k, standing);
        Standing {
            time,
            cursor: caller + 1,
            ..left
        }
    }

    // Searches from gate `root`, if it was not entered.
    fn explore(&mut self, graph: &[u16; GRAPH_WORDS], root: usize, from: Standing) -> Standing
        requires { (root < max_gates) × StandingReady from.time from.top from.count × (from.time < clock_end) }
        ensures { StandingReady result.time result.top result.count }
    {
        if self.notes[NOTE_SIZE * root + ENTERED] != 0 {
            return from;
        }
        let time = from.time + 1;
        self.enter(root, NOWHERE, time);
        let mut standing = Standing {
            time,
            cursor: CURSORS * root,
            ..from
        };
        // The search ends as it leaves its root, which no range tells, or at the clock's end.
        while standing.cursor < CURSORS * MAX_GATES && standing.time < CLOCK {
            standing = self.turn(graph, standing);
        }
        standing
    }
}

// Searches from every gate: writes the order of a graph's gates and where their layers end.
pub fn find_layers(
    graph: GateGraph,
    stack: &mut [u16; MAX_GATES],
    notes: &mut [u16; NOTES],
    order: &mut [u16; MAX_GATES],
    ends: &mut [u16; MAX_GATES],
) {
    let mut search = Search {
        notes,
        stack,
        order,
        ends,
    };
    let mut standing = Standing {
        time: 0,
        cursor: 0,
        top: 0,
        count: 0,
    };
    for root in 0..graph.gates {
        if CLOCK <= standing.time {
            return;
        }
        standing = search.explore(graph.words, root, standing);
    }
}
