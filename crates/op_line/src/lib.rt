// Line (SPECIFICATION 7.4): the line of the text that holds a given place, as the part of the caller's own text,
// without its LF. Never refuses. `line_start` and `line_length` are its two ends for callers who cannot be handed a
// part: the C export.
#![tactic(auto)]

ghost use Rattle.std.specs.Prelude.{◌≡◌, false, ℕ, ◌+◌, ◌<◌, ◌≤◌, length, get_or, drop};
ghost use Rattle.netlist.specs.Line.{lf, clamped, start_before, until_lf, line_start, line_end, line_length, line_at};
ghost use Rattle.op_line.specs.Parts.{part_size};

// How many bytes are compared together, in vector instructions.
const PART: usize = 64;

// The place, or the text's end where the place is past it.
fn clamp(text: &[u8], place: usize) -> usize
    ensures { result ≡ clamped text.now place }
{
    place.min(text.len())
}

// Does an LF stand in the part from `at` on? The loop has no early end, so that it is compiled to vector instructions.
// Not that of text_lines, whose parts are shorter: this crate stands on netlist alone, and no crate below holds both.
fn has_lf(text: &[u8], at: usize) -> bool
    requires { at + part_size ≤ length text.now }
    ensures { result ≡ false → (k : ℕ) → k < part_size → get_or text.now (at + k) 0 ≡ lf → ⊥ }
{
    let mut found = false;
    for i in 0..PART {
        found = found | (text[at + i] == b'\n');
    }
    found
}

// Goes back over whole parts without an LF.
fn skip_before(text: &[u8], at: usize) -> usize
    requires { at ≤ length text.now }
    ensures { (result ≤ length text.now)
        × (start_before text.now at ≡ start_before text.now result) }
{
    // Steps of PART down from any place: a reversed range with step_by would be no plainer.
    let mut start = at;
    while PART <= start && !has_lf(text, start - PART) {
        start -= PART;
    }
    start
}

// Goes on over whole parts without an LF.
fn skip_behind(text: &[u8], at: usize) -> usize
    requires { at ≤ length text.now }
    ensures { (result ≤ length text.now)
        × (at + until_lf (drop at text.now) ≡ result + until_lf (drop result text.now)) }
{
    // Steps of PART up from any place: a range with step_by would be no plainer.
    let mut end = at;
    while PART <= text.len() - end && !has_lf(text, end) {
        end += PART;
    }
    end
}

// The place of the line's first byte: behind the last LF before the place.
pub fn line_start(text: &[u8], place: usize) -> usize
    ensures { result ≡ line_start text.now place }
{
    let end = skip_before(text, clamp(text, place));
    for i in (0..end).rev() {
        if text[i] == b'\n' {
            return i + 1;
        }
    }
    0
}

// How many bytes stand before the first LF.
fn until_lf(bytes: &[u8]) -> usize
    ensures { result ≡ until_lf bytes.now }
{
    bytes
        .iter()
        .position(|b| *b == b'\n')
        .unwrap_or(bytes.len())
}

// The place of the first LF at or behind the place, or the end.
fn line_end(text: &[u8], place: usize) -> usize
    ensures { result ≡ line_end text.now place }
{
    let from = skip_behind(text, clamp(text, place));
    from + until_lf(&text[from..])
}

// How many bytes the line has, without its LF, once its start is known.
pub fn line_length(text: &[u8], place: usize, start: usize) -> usize
    requires { start ≡ line_start text.now place }
    ensures { result ≡ line_length text.now place }
{
    line_end(text, place) - start
}

// The line that holds a place. Its promise: the line's bytes, and that they are the caller's own text from the line's
// start on.
pub fn line(text: &[u8], place: usize) -> &[u8]
    ensures holds { result.now ≡ line_at text.now place }
    ensures stands { (result.ref_ptr.0 ≡ text.entry.ref_ptr.0)
        × (result.ref_ptr.1 ≡ text.entry.ref_ptr.1 + line_start text.now place) }
{
    let start = line_start(text, place);
    let end = line_end(text, place);
    &text[start..end]
}
