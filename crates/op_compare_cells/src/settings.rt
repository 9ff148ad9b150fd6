// The search for the lowest setting under which a block and cells disagree, a batch of up to 64 at a time.
ghost use Rattle.op_compare_cells.specs.Ready.{SearchReady};
ghost use Rattle.op_compare_cells.specs.Found.{Found};

use crate::evaluate::evaluate_cells;
use crate::miter::Miter;
use crate::table::TABLE_WORDS;
use graph_gates::PLACES;
use lanes_batch::plan::PlannedBlock;
use lanes_dual_rail::LANE_WORDS;
use lanes_dual_rail::words::{lane_count, lowest_lane};
use lanes_settings::decided::judge_batch;
use lanes_settings::setting_count;
use lanes_settings::settled::JudgedBatch;
use netlist::{Answer, Done};
use words_layout::offsets::inputs_of;

// Goes over the batches in ascending order, up to the first disagreement: its lowest lane, and there the lowest output.
pub fn search_settings<'a>(
    block: PlannedBlock<'a>,
    shown: &'a [u16],
    table: &[u16; TABLE_WORDS],
    lanes: &mut [u64; LANE_WORDS],
    nodes: &mut [u64; PLACES],
) -> Answer
    requires { SearchReady block.words.now shown.now table.now }
    ensures { Found block.entry.words.now shown.now table.now result }
{
    let words = block.words;
    let n = inputs_of(words);
    let count = setting_count(n);
    let batch = lane_count(n);
    let mut base = 0;
    // A range with step_by would need the same measure, and be no plainer.
    while base < count {
        judge_batch(block, base, lanes);
        evaluate_cells(n, base, table, nodes);
        let miter = Miter {
            batch: JudgedBatch { words, base, lanes },
            shown,
            nodes,
        };
        if let Some(lane) = lowest_lane(miter.disagreeing_lanes()) {
            let o = miter.lowest_differing(lane);
            return Ok(Done {
                count: o + 1,
                detail: base + lane,
            });
        }
        base += batch;
    }
    Ok(Done {
        count: 0,
        detail: 0,
    })
}
