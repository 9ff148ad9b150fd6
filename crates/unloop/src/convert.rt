// What the program writes: Read, Render and Write one after the other, or the line of the refusal (SPECIFICATION 8). The
// slices lent are asked to be long enough; arrays of one length would ask more of whoever lends them.
ghost use Rattle.std.specs.Prelude.{◌≤◌, length};
ghost use Rattle.netlist.specs.Limits.{max_block, max_written};
ghost use Rattle.netlist.specs.Operations.{render_words, write_words};
ghost use Rattle.netlist.specs.Program.{chained};
ghost use Rattle.text_pieces.specs.Shown.{Shown};
ghost use Rattle.unloop.specs.Shown.{Converted};

use op_read::read;
use op_render::render;
use op_write::write;
use text_pieces::refusal_line::tell;
use words_layout::limits::BLOCK_WORDS;

// Writes the text of the rendered block, or the refusal's line; gives its length.
fn convert_rendered(words: &[u16], out: &mut [u8]) -> usize
    requires { max_written ≤ length out.old }
    ensures { Shown (write_words words.now) out.old out.new result }
{
    match write(words, out) {
        Err(why) => tell(why, out),
        Ok(done) => done.count,
    }
}

// Renders a block and writes the text of the rendering, or the refusal's line; gives its length.
fn convert_block(words: &[u16], copies: &mut [u16], out: &mut [u8]) -> usize
    requires { (max_block ≤ length copies.old) × (max_written ≤ length out.old) }
    ensures { Shown (chained (render_words words.now) write_words) out.old out.new
        result }
{
    match render(words, copies) {
        Err(why) => tell(why, out),
        Ok(done) => convert_rendered(&copies[..done.count], out),
    }
}

// Reads a text, renders its block and writes the rendering's text, or the refusal's line; gives its length.
fn convert_with(text: &[u8], block: &mut [u16], copies: &mut [u16], out: &mut [u8]) -> usize
    requires { (max_block ≤ length block.old) × (max_block ≤ length copies.old)
        × (max_written ≤ length out.old) }
    ensures { Converted text.now out.old out.new result }
{
    match read(text, block) {
        Err(why) => tell(why, out),
        Ok(done) => convert_block(&block[..done.count], copies, out),
    }
}

// The program's output for this text, at the start of `out`; answers its length.
pub fn convert(text: &[u8], out: &mut [u8]) -> usize
    requires { max_written ≤ length out.old }
    ensures { Converted text.now out.old out.new result }
{
    let mut block = [0u16; BLOCK_WORDS];
    let mut copies = [0u16; BLOCK_WORDS];
    convert_with(text, &mut block, &mut copies, out)
}
