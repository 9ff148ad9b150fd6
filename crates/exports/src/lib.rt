// The operations as C functions (SPECIFICATION 7), for programs in other languages: include/unloop.h declares them.
// Each has its operation's promise and no condition. A slice is a pointer and a length.
#![tactic(auto)]

ghost use Rattle.std.specs.Prelude.{◌≡◌, ◌≤◌, length};
ghost use Rattle.netlist.specs.Answers.{answer_of, Shows};
ghost use Rattle.netlist.specs.Operations.{read, write, settle, verdict, cover_of, groups_of};
ghost use Rattle.netlist.specs.Bring.{bring};
ghost use Rattle.netlist.specs.Cells.{run_cells};
ghost use Rattle.netlist.specs.Sheet.{sheet, sheet_records};
ghost use Rattle.netlist.specs.Compare.{compare};
ghost use Rattle.netlist.specs.CompareCells.{compare_cells};
ghost use Rattle.netlist.specs.Line.{line_start, line_length};
ghost use Rattle.netlist.specs.Gather.{scatter};
ghost use Rattle.exports.specs.Replies.{Replies, PassReply, RenderReply, CellsReply, GatherReply};

use netlist::{Record, Reply};
use op_sheet::reply_to_sheet;
use op_sheet::turns::{advance, answer, no_batch, place_at};
use words_layout::block::Block;
use words_refusals::reply_of;

// Where a line starts, and how many bytes it has.
#[repr(C)]
#[derive(Drop)]
pub struct Span {
    pub start: usize,
    pub length: usize,
}

// Read: text to block; count: words.
#[unsafe(no_mangle)]
pub extern "C" fn unloop_read(text: &[u8], block: &mut [u16]) -> Reply
    ensures { Replies (read text.now (length block.old)) block.old result
        block.new }
{
    reply_of(op_read::read(text, block))
}

// Write: block to text; count: bytes.
#[unsafe(no_mangle)]
pub extern "C" fn unloop_write(block: &[u16], text: &mut [u8]) -> Reply
    ensures { Replies (write block.now (length text.old)) text.old result
        text.new }
{
    reply_of(op_write::write(block, text))
}

// Bring: the words of a block stored before there were never lines, as words of today; count: words.
#[unsafe(no_mangle)]
pub extern "C" fn unloop_bring(old: &[u16], block: &mut [u16]) -> Reply
    ensures { Replies (bring old.now (length block.old)) block.old result
        block.new }
{
    reply_of(op_bring::bring(old, block))
}

// Settle: the settled value of each gate; count: rounds.
#[unsafe(no_mangle)]
pub extern "C" fn unloop_settle(block: &[u16], setting: &[u8], values: &mut [u8]) -> Reply
    ensures { Replies (settle block.now setting.now (length values.old))
        values.old result values.new }
{
    reply_of(op_settle::settle::settle(block, setting, values))
}

// Pass: the values of a straight block in one sweep, Settle's values; count: gates.
#[unsafe(no_mangle)]
pub extern "C" fn unloop_pass(block: &[u16], setting: &[u8], values: &mut [u8]) -> Reply
    ensures { PassReply block.now setting.now values.old result
        values.new }
{
    reply_of(op_pass::pass(block, setting, values))
}

// Sheet: each record's answer from its two masks of inputs; count: the records. Two turns for each record: it is read,
// and once its batch is settled it is answered.
#[unsafe(no_mangle)]
pub extern "C" fn unloop_sheet(block: &[u16], records: &mut [Record]) -> Reply
    ensures answers { Shows (answer_of (sheet block.now (length records.old))) result }
    ensures leaves { records.new ≡ sheet_records block.now records.old }
{
    let reply = reply_to_sheet(block, records.len());
    let count = reply.count;
    let turns = 2 * count;
    let mut batch = no_batch();
    for t in 0..turns {
        let i = place_at(count, t);
        let asked = records[i];
        let whole = Block { words: block };
        batch = advance(&whole, count, t, asked, batch);
        records[i] = answer(block, count, t, asked, batch);
    }
    reply
}

// Verdict: count: settled settings; detail: the lowest other, or 2^n if none.
#[unsafe(no_mangle)]
pub extern "C" fn unloop_verdict(block: &[u16]) -> Reply
    ensures { Shows (answer_of (verdict block.now)) result }
{
    reply_of(op_verdict::verdict(block))
}

// Cover: two words an entry; count: entries.
#[unsafe(no_mangle)]
pub extern "C" fn unloop_cover(block: &[u16], entries: &mut [u16]) -> Reply
    ensures { Replies (cover_of block.now (length entries.old)) entries.old result
        entries.new }
{
    reply_of(op_cover::cover(block, entries))
}

// Groups: each gate's group number; count: groups.
#[unsafe(no_mangle)]
pub extern "C" fn unloop_groups(block: &[u16], numbers: &mut [u16]) -> Reply
    ensures { Replies (groups_of block.now (length numbers.old)) numbers.old result
        numbers.new }
{
    reply_of(op_groups::groups(block, numbers))
}

// Render: the rendered block; count: words.
#[unsafe(no_mangle)]
pub extern "C" fn unloop_render(block: &[u16], rendered: &mut [u16]) -> Reply
    ensures { RenderReply block.now rendered.old result rendered.new }
{
    reply_of(op_render::render(block, rendered))
}

// Cells: the lookup cells of a straight block, whose run gives Pass's values; count: words.
#[unsafe(no_mangle)]
pub extern "C" fn unloop_cells(block: &[u16], cells: &mut [u16]) -> Reply
    ensures { CellsReply block.now cells.old result cells.new }
{
    reply_of(op_cells::make::make_cells(block, cells))
}

// Run: the value of each cell, 0 or 1, from any words for cells and any number of inputs; count: cells.
#[unsafe(no_mangle)]
pub extern "C" fn unloop_run(
    inputs: usize,
    cells: &[u16],
    setting: &[u8],
    values: &mut [u8],
) -> Reply
    ensures { Replies (run_cells inputs cells.now setting.now (length values.old))
        values.old result values.new }
{
    reply_of(op_cells::run::run_cells(inputs, cells, setting, values))
}

// Line: the line that holds the place, as the part of the caller's own text, without its LF.
#[unsafe(no_mangle)]
pub extern "C" fn unloop_line(text: &[u8], place: usize) -> Span
    ensures start_value { result.start ≡ line_start text.now place }
    ensures length_value { result.length ≡ line_length text.now place }
{
    let start = op_line::line_start(text, place);
    Span {
        start,
        length: op_line::line_length(text, place, start),
    }
}

// Compare: accepted with count and detail 0, or the lowest setting and output that differ.
#[unsafe(no_mangle)]
pub extern "C" fn unloop_compare(ours: &[u16], theirs: &[u16]) -> Reply
    ensures { Shows (answer_of (compare ours.now theirs.now)) result }
{
    reply_of(op_compare::compare(ours, theirs))
}

// CompareCells: are cells made elsewhere as good as the block, each output shown by the node that the list has for it?
// Accepted: count and detail 0; else the lowest output that differs, counted from 1, and the lowest setting.
#[unsafe(no_mangle)]
pub extern "C" fn unloop_compare_cells(block: &[u16], cells: &[u16], shown: &[u16]) -> Reply
    ensures { Shows (answer_of (compare_cells block.now cells.now shown.now))
        result }
{
    reply_of(op_compare_cells::compare_cells(block, cells, shown))
}

// Gather: the block with its gates by group, and the list of their old numbers; count: the block's words.
#[unsafe(no_mangle)]
pub extern "C" fn unloop_gather(block: &[u16], gathered: &mut [u16], order: &mut [u16]) -> Reply
    ensures { GatherReply block.now gathered.old order.old result
        gathered.new order.new }
{
    reply_of(op_gather::gather(block, gathered, order))
}

// Scatter: the block with its gates in the order that they had, from the list of their old numbers; count: words.
#[unsafe(no_mangle)]
pub extern "C" fn unloop_scatter(block: &[u16], order: &[u16], original: &mut [u16]) -> Reply
    ensures { Replies (scatter block.now order.now (length original.old))
        original.old result original.new }
{
    reply_of(op_gather::scatter(block, order, original))
}
