// The pairs of a group's gates: copied, made undefined, and compared with others. Gate j's pair stands at place
// FIRST_GATE + j.
ghost use Rattle.std.specs.Prelude.{◌≡◌, [], ◌%◌, ◌≤◌, ◌<◌, get_or};
ghost use Rattle.netlist.specs.Limits.{max_inputs, max_gates};
ghost use Rattle.netlist.specs.StoredBlock.{decode};
ghost use Rattle.lanes_dual_rail.specs.Batches.{lanes_of};
ghost use Rattle.lanes_batch.specs.Layered.{OrderPart};
ghost use Rattle.unroll_depth.specs.Pairs.{Put, ProperAt, Differs, Lacks};

use crate::passes::Turn;
use graph_gates::FIRST_GATE;
use lanes_dual_rail::evaluate::{pair_at, put_pair};
use lanes_dual_rail::{LANE_WORDS, Pair};
use lanes_settings::nevers::coming_lanes;
use words_layout::limits::MAX_GATES;

// A group for the settings of one batch: its gates are `members[turn.from..turn.end]`.
#[derive(Clone, Copy)]
pub struct Group<'a> {
    pub members: &'a [u16; MAX_GATES],
    pub turn: Turn,
    ghost part: { OrderPart max_gates members.now turn.from turn.end },
}

impl<'a> Group<'a> {
    ghost use Rattle.unroll_depth.specs.Group.{gates_listed};

    // Copies the pairs of the group's gates from a source.
    pub fn put_pairs(&self, source: &[u64; LANE_WORDS], lanes: &mut [u64; LANE_WORDS])
        ensures { Put (gates_listed self.now) source.now lanes.old lanes.new }
    {
        for i in self.turn.from..self.turn.end {
            let place = FIRST_GATE + self.members[i] as usize;
            put_pair(lanes, place, pair_at(source, place));
        }
    }

    // Makes the group's gates undefined at every lane.
    pub fn clear_pairs(&self, lanes: &mut [u64; LANE_WORDS])
        ensures { Put (gates_listed self.now) [] lanes.old lanes.new }
    {
        for i in self.turn.from..self.turn.end {
            put_pair(
                lanes,
                FIRST_GATE + self.members[i] as usize,
                Pair { zeros: 0, ones: 0 },
            );
        }
    }

    // The lanes at which some gate of the group has another value in `lanes` than in `kept`.
    fn differing_lanes(&self, lanes: &[u64; LANE_WORDS], kept: &[u64; LANE_WORDS]) -> u64
        ensures { Differs (gates_listed self.now) lanes.now kept.now result }
    {
        let mut differing = 0u64;
        for i in self.turn.from..self.turn.end {
            let place = FIRST_GATE + self.members[i] as usize;
            differing |= pair_at(lanes, place).difference(pair_at(kept, place));
        }
        differing
    }

    // Has some gate of the group another value in `lanes` than in `kept`, under a setting of the batch that may come?
    pub fn lacks(&self, words: &[u16], lanes: &[u64; LANE_WORDS], kept: &[u64; LANE_WORDS]) -> bool
        requires batch { (get_or words.now 0 0 ≤ max_inputs) × (self.now.turn.base % 64 ≡ 0) }
        requires proper_at { ProperAt (lanes_of (get_or words.now 0 0)) (gates_listed self.now) lanes.now
            × ProperAt (lanes_of (get_or words.now 0 0)) (gates_listed self.now) kept.now }
        ensures { Lacks (decode words.now) (get_or words.now 0 0) self.now.turn.base
            (gates_listed self.now) lanes.now
            kept.now result }
    {
        let differing = self.differing_lanes(lanes, kept);
        if differing == 0 {
            return false;
        }
        coming_lanes(words, self.turn.base) & differing != 0
    }
}
