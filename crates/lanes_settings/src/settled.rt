// A decided batch: what its outputs are, and which of its settings are settled.
ghost use Rattle.std.specs.Prelude.{◌≡◌, ◌<◌, get_or};
ghost use Rattle.std.proofs.Props.{props};
ghost use Rattle.lanes_settings.specs.Lanes.{Judged};

use crate::nevers::coming_lanes;
use crate::outputs::{output_pair, unsettled_lanes};
use lanes_dual_rail::inputs::used_lanes;
use lanes_dual_rail::{LANE_WORDS, Pair};
use words_layout::offsets::{inputs_of, outputs_at, outputs_of};

// The batch at `base` of a block's settings; `lanes` holds its settled values.
#[derive(Clone, Copy)]
pub struct JudgedBatch<'a> {
    pub words: &'a [u16],
    pub base: usize,
    pub lanes: &'a [u64; LANE_WORDS],
    ghost judged: { Judged words.now (get_or words.now 0 0) base lanes.now } by { Prim.hlevel props },
}

impl<'a> JudgedBatch<'a> {
    ghost use Rattle.netlist.specs.Rounds.{is_counted, is_sound_at};
    ghost use Rattle.lanes_settings.specs.Lanes.{is_unsettled, is_unsound};
    ghost use Rattle.lanes_settings.specs.Judged.{TellsIn, pair_shown};

    // The pair of output `o`.
    pub fn output_pair(&self, o: usize) -> Pair
        requires { o < get_or self.now.words.now 2 0 }
        ensures { result ≡ pair_shown self.now o }
    {
        output_pair(
            self.words,
            outputs_at(self.words),
            inputs_of(self.words),
            o,
            self.lanes,
        )
    }

    // The lanes at which some output is undefined.
    fn undecided_lanes(&self) -> u64
        ensures { TellsIn self.now is_unsettled result }
    {
        let at = outputs_at(self.words);
        unsettled_lanes(
            self.words,
            at,
            inputs_of(self.words),
            outputs_of(self.words),
            self.lanes,
        )
    }

    // The lanes whose setting may come and is not settled.
    pub fn unsound_lanes(&self) -> u64
        ensures { TellsIn self.now is_unsound result }
    {
        coming_lanes(self.words, self.base) & self.undecided_lanes()
    }

    // The lanes whose setting may come and is settled.
    pub fn counted_lanes(&self) -> u64
        ensures { TellsIn self.now is_counted result }
    {
        let used = used_lanes(inputs_of(self.words));
        coming_lanes(self.words, self.base) & (used ^ self.undecided_lanes())
    }

    // The lanes whose setting never comes or is settled.
    pub fn sound_lanes(&self) -> u64
        ensures { TellsIn self.now is_sound_at result }
    {
        used_lanes(inputs_of(self.words)) ^ self.unsound_lanes()
    }
}
