// Topological order of the strongly connected groups by Kahn's algorithm ("Topological sorting of large networks",
// 1962): of the groups that read no gate without a number outside themselves, the one with the lowest gate is next.
ghost use Rattle.graph_gates.specs.Legal.{network_of};
ghost use Rattle.op_groups.specs.Numbering.{NumbersOf};
ghost use Rattle.op_groups.specs.Waiting.{AllLinked};
ghost use Rattle.op_groups.specs.Underway.{GroupReady, GroupDone, NumberingReady};

use crate::links::link;
use crate::ready::{READY_WORDS, ReadySet};
use crate::waiting::{Groups, InDegrees};
use graph_gates::fanout::{FANOUT_WORDS, link_slots};
use graph_gates::graph::GateGraph;
use graph_scc::leaders::lead;
use words_layout::limits::MAX_GATES;
use words_layout::nodes::NONE;

// Gives a number to every gate of the group that `leader` leads, which is ready.
fn number_group(
    groups: Groups<'_>,
    leader: usize,
    number: usize,
    numbers: &mut [u16; MAX_GATES],
    waiting: &mut InDegrees,
)
    requires { GroupReady groups leader number numbers.old waiting.old }
    ensures { GroupDone groups.entry leader number numbers.old numbers.new waiting.new }
{
    waiting.ready.remove(leader);
    let mut k = leader;
    // Each gate of the list names the next, so that no index counts them.
    while k < groups.graph.gates {
        numbers[k] = number as u16;
        waiting.count_down(groups, k, numbers);
        k = groups.nexts[k] as usize;
    }
}

// Group after group gets its number, the ready one with the lowest gate first; how many groups there are.
fn number_all(groups: Groups<'_>, numbers: &mut [u16; MAX_GATES], waiting: &mut InDegrees) -> usize
    requires { NumberingReady groups numbers.old waiting.old }
    ensures { NumbersOf (network_of groups.entry.graph) groups.entry.graph.gates numbers.new result }
{
    for g in 0..groups.graph.gates {
        match waiting.ready.lowest() {
            Some(leader) => number_group(groups, leader, g, numbers, waiting),
            None => return g,
        }
    }
    groups.graph.gates
}

// Numbers the groups: none has its number before, and each waits for the slots that are counted.
fn number_from_none(groups: Groups<'_>, numbers: &mut [u16; MAX_GATES]) -> usize
    requires { AllLinked groups.graph.gates groups.graph.words.now groups.leaders.now groups.nexts.now groups.fanout.now }
    ensures { NumbersOf (network_of groups.entry.graph) groups.entry.graph.gates numbers.new result }
{
    *numbers = [NONE as u16; MAX_GATES];
    let mut waiting = InDegrees {
        counts: [0; MAX_GATES],
        ready: ReadySet {
            words: [0; READY_WORDS],
        },
    };
    waiting.count_slots(groups);
    waiting.add_all_ready(groups);
    number_all(groups, numbers, &mut waiting)
}

// Writes each gate's group number; how many groups there are.
pub fn number_groups(graph: GateGraph, numbers: &mut [u16; MAX_GATES]) -> usize
    ensures { NumbersOf (network_of graph.entry) graph.entry.gates numbers.new result }
{
    let mut leaders = [0u16; MAX_GATES];
    let mut firsts = [0u16; MAX_GATES];
    let mut nexts = [0u16; MAX_GATES];
    let mut fanout = [0u16; FANOUT_WORDS];
    lead(graph, &mut leaders);
    link(&leaders, graph.gates, graph.gates, &mut firsts, &mut nexts);
    link_slots(graph, &mut fanout);
    let groups = Groups {
        graph,
        leaders: &leaders,
        nexts: &nexts,
        fanout: &fanout,
    };
    number_from_none(groups, numbers)
}
