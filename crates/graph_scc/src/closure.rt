// The transitive closure, for leaders without a certificate: of each gate the gates that it reaches and those that
// reach it, each set grown gate by gate as long as a gate can be added. No graph is known for which this is needed.
ghost use Rattle.std.specs.Prelude.{◌≡◌, ◌≤◌, ◌<◌};
ghost use Rattle.prelude.specs.Lists.{least};
ghost use Rattle.netlist.specs.Limits.{max_gates};
ghost use Rattle.graph_gates.specs.Graph.{slots};
ghost use Rattle.graph_gates.specs.Legal.{network_of};
ghost use Rattle.graph_scc.specs.Leaders.{leader_of, Leads};
ghost use Rattle.graph_scc.specs.Closure.{Added, in_both, LeaderFound};

use crate::operands::slot_gate;
use graph_gates::SLOTS;
use graph_gates::graph::GateGraph;
use words_layout::fill::fill_words;
use words_layout::limits::MAX_GATES;

// Gate `to`, if gate `from` is in the set and gate `to` is not.
fn added(from: usize, to: usize, flags: &[u16; MAX_GATES]) -> Option<usize>
    requires { (from < max_gates) × (to < max_gates) }
    ensures { Added flags.now from to result }
{
    if flags[from] == 1 && flags[to] != 1 {
        Some(to)
    } else {
        None
    }
}

// The reads of a graph, taken along or back. This is all that `back` chooses, and a closure in its place would be lent
// through the same five functions.
#[derive(Clone, Copy)]
struct Edges<'a> {
    graph: GateGraph<'a>,
    back: bool,
}

impl<'a> Edges<'a> {
    ghost use Rattle.graph_scc.specs.Edges.{SlotAdds, GateAdds, SomeAdds, IsGrowing, IsReached};

    // The gate that a read by slot `s` of gate k adds, if it adds one: what is read, or going back the gate that reads.
    fn slot_target(&self, k: usize, s: usize, flags: &[u16; MAX_GATES]) -> Option<usize>
        requires { (k < self.now.graph.gates) × (s < slots) }
        ensures { SlotAdds self.now flags.now k s result }
    {
        let j = slot_gate(self.graph, k, s)?;
        if self.back {
            added(j, k, flags)
        } else {
            added(k, j, flags)
        }
    }

    // The gate that a read of gate k adds, if one does.
    fn gate_target(&self, k: usize, flags: &[u16; MAX_GATES]) -> Option<usize>
        requires { k < self.now.graph.gates }
        ensures { GateAdds self.now flags.now k result }
    {
        (0..SLOTS).find_map(|s| self.slot_target(k, s, flags))
    }

    // A gate that some read adds, if one does.
    fn next_target(&self, flags: &[u16; MAX_GATES]) -> Option<usize>
        ensures { SomeAdds self.now flags.now result }
    {
        (0..self.graph.gates).find_map(|k| self.gate_target(k, flags))
    }

    // Adds gates until none can be added.
    fn grow(&self, start: usize, flags: &mut [u16; MAX_GATES])
        requires { (start < self.now.graph.gates) × IsGrowing self.now start flags.old }
        ensures { IsReached self.now start flags.new }
    {
        // Each turn asks anew, over the flags that it sets itself, so that no iterator could lend them.
        while let Some(t) = self.next_target(flags) {
            flags[t] = 1;
        }
    }

    // The gates that gate `start` reaches, or going back those that reach it.
    fn reach_from(&self, start: usize, flags: &mut [u16; MAX_GATES])
        requires { start < self.now.graph.gates }
        ensures { IsReached self.now start flags.new }
    {
        fill_words(flags, self.graph.gates, 0);
        flags[start] = 1;
        self.grow(start, flags);
    }
}

// The lowest gate that is in both sets, or m, as the definition has it; the gate that the sets grew from is in both.
fn lowest_of_both(m: usize, ahead: &[u16; MAX_GATES], behind: &[u16; MAX_GATES]) -> usize
    requires { m ≤ max_gates }
    ensures { result ≡ least (in_both ahead.now behind.now) m }
{
    (0..m)
        .find(|&i| ahead[i] == 1 && behind[i] == 1)
        .unwrap_or(m)
}

// The leader of gate j: the lowest gate that it reaches and that reaches it.
fn leader_of(
    graph: GateGraph,
    j: usize,
    ahead: &mut [u16; MAX_GATES],
    behind: &mut [u16; MAX_GATES],
) -> usize
    requires { j < graph.gates }
    ensures { LeaderFound graph.entry.gates graph.entry.words.now j ahead.new behind.new result }
{
    Edges { graph, back: false }.reach_from(j, ahead);
    Edges { graph, back: true }.reach_from(j, behind);
    lowest_of_both(graph.gates, ahead, behind)
}

// Finds the leader of each gate, with room lent for both sets.
fn lead_each(
    graph: GateGraph,
    ahead: &mut [u16; MAX_GATES],
    behind: &mut [u16; MAX_GATES],
    leaders: &mut [u16; MAX_GATES],
)
    ensures { Leads (network_of graph.entry) graph.entry.gates leaders.new }
{
    for j in 0..graph.gates {
        leaders[j] = leader_of(graph, j, ahead, behind) as u16;
    }
}

// Finds the leader of every gate by closure; makes room for the sets.
pub fn lead_by_closure(graph: GateGraph, leaders: &mut [u16; MAX_GATES])
    ensures { Leads (network_of graph.entry) graph.entry.gates leaders.new }
{
    let mut ahead = [0u16; MAX_GATES];
    let mut behind = [0u16; MAX_GATES];
    lead_each(graph, &mut ahead, &mut behind, leaders);
}
