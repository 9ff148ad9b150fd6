// The table of the settings that never come or are settled: they are decided up to 64 at a time, by the block's plan.
ghost use Rattle.std.specs.Prelude.{◌≡◌, ◌+◌, ◌^◌, ◌≤◌, ◌<◌, length, get_or};
ghost use Rattle.prelude.specs.Lists.{tab, placed};
ghost use Rattle.netlist.specs.Limits.{max_inputs};
ghost use Rattle.netlist.specs.StoredBlock.{decode};
ghost use Rattle.words_layout.specs.Bounds.{count_room};
ghost use Rattle.op_cover.specs.Table.{Tabulated, sound_flag, flagged};

use lanes_batch::plan::{Plan, PlannedBlock, plan_block};
use lanes_dual_rail::LANE_WORDS;
use lanes_dual_rail::words::lane_count;
use lanes_settings::decided::judge_batch;
use lanes_settings::setting_count;
use lanes_settings::settled::JudgedBatch;
use words_layout::block::Block;
use words_layout::offsets::inputs_of;

// A byte for each of the first `lanes` bits of a word, from `base` on.
fn write_flags(word: u64, base: usize, lanes: usize, flags: &mut [u8])
    requires { (lanes ≤ 64) × (base < count_room) × (base + lanes ≤ length flags.old) }
    ensures { flags.new ≡ flagged word base lanes flags.old }
{
    for s in 0..lanes {
        flags[base + s] = ((word >> s) % 2) as u8;
    }
}

// A flag for each setting: does it never come, or is it settled?
fn fill_sound(block: PlannedBlock, lanes: &mut [u64; LANE_WORDS], sound: &mut [u8])
    requires { 2 ^ get_or block.words.now 0 0 ≤ length sound.old }
    ensures { sound.new
        ≡ placed (tab (sound_flag (decode block.entry.words.now)) (2 ^ get_or block.entry.words.now 0 0))
        sound.old }
{
    let words = block.words;
    let n = inputs_of(words);
    let count = setting_count(n);
    let batch = lane_count(n);
    // A range with step_by would need the same measure, and be no plainer.
    let mut base = 0;
    while base < count {
        judge_batch(block, base, lanes);
        let judged = JudgedBatch { words, base, lanes };
        write_flags(judged.sound_lanes(), base, batch, sound);
        base += batch;
    }
}

// For each setting of a block: 1 where it never comes or is settled, else 0.
pub fn tabulate(block: &Block, plan: &mut Plan, lanes: &mut [u64; LANE_WORDS], settled: &mut [u8])
    requires { length settled.old ≡ 2 ^ max_inputs }
    ensures { Tabulated (decode block.now.words.now) settled.new }
{
    plan_block(block, plan);
    let planned = PlannedBlock {
        words: block.words,
        plan,
    };
    fill_sound(planned, lanes, settled);
}
