// What follows the walk: is the block settled (9), is there room (11), and the rendered block's words.
ghost use Rattle.std.specs.Prelude.{◌≡◌, not, ◌≤◌, length};
ghost use Rattle.prelude.specs.Lists.{placed};
ghost use Rattle.netlist.specs.declared.Refusal.TheVariants.{NotSettled};
ghost use Rattle.netlist.specs.StoredBlock.{encode, decode};
ghost use Rattle.netlist.specs.Rounds.{lowest_unsettled};
ghost use Rattle.netlist.specs.Cover.{is_sound};
ghost use Rattle.netlist.specs.Rendering.{rendering};
ghost use Rattle.netlist.specs.Answers.{Promise};
ghost use Rattle.words_refusals.specs.Tests.{test_of};
ghost use Rattle.netlist.specs.Operations.{render};
ghost use Rattle.op_render.specs.Steps.{CopiesReady, RenderingReady};

use lanes_settings::setting_count;
use netlist::{Answer, Done, Refusal};
use unroll_emission::rendered::write_rendering;
use unroll_order::GroupPasses;
use words_layout::block::Block;
use words_layout::limits::MAX_GATES;
use words_layout::offsets::{OUTPUT_SIZE, inputs_of, nevers_of, outputs_behind, outputs_of};
use words_refusals::{refuse_if, test_room};

// Writes the rendered block, for which there is room.
fn write_copies(words: &[u16], passes: &GroupPasses, total: usize, rendered: &mut [u16])
    requires { CopiesReady words.now passes.now total
        × (length (encode (rendering (decode words.now))) ≤ length rendered.old) }
    ensures { rendered.new ≡ placed (encode (rendering (decode words.now))) rendered.old }
{
    let mut copies = [0u16; MAX_GATES];
    let mut newest = [0u16; MAX_GATES];
    passes.append(&mut copies);
    write_rendering(words, &copies, total, &mut newest, rendered);
}

// Writes the rendered block if there is room; answers 11 if there is none.
pub fn finish(words: &[u16], passes: &GroupPasses, total: usize, rendered: &mut [u16]) -> Answer
    requires { RenderingReady words.now passes.now total }
    ensures { Promise (render words.now (length rendered.old)) rendered.old result
        rendered.new }
{
    let n = inputs_of(words);
    let k = outputs_of(words);
    let size = outputs_behind(n, nevers_of(words), total) + OUTPUT_SIZE * k;
    test_room(rendered.len(), size)?;
    write_copies(words, passes, total, rendered);
    Ok(Done {
        count: size,
        detail: 0,
    })
}

// 9: is the lowest setting that may come and is not settled below 2^n? Tells it.
pub fn test_settings(block: &Block, lowest: usize) -> Result<(), Refusal>
    requires { lowest ≡ lowest_unsettled (decode block.now.words.now) }
    ensures { result ≡ test_of (not (is_sound (decode block.now.words.now)))
        (NotSettled (lowest_unsettled (decode block.now.words.now))) }
{
    let count = setting_count(inputs_of(block.words));
    refuse_if(lowest < count, Refusal::NotSettled(lowest))
}
