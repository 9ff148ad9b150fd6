// The table of declared names, in the order of the text: numbers of the names, their places, and the node numbers of
// inputs and gates.
ghost use Rattle.std.specs.Prelude.{◌≡◌, ◌≤◌, length};
ghost use Rattle.netlist.specs.Limits.{max_text, max_inputs};
ghost use Rattle.text_symbols.specs.Tables.{line_word, FillReady, FilledTo};
ghost use Rattle.text_symbols.specs.Results.{InputRoom, InputNames, TableRoom, Filled};

use text_lines::counts::Counts;
use text_lines::line_of;
use text_names::pack::{fill_names, pack_at};
use words_layout::limits::{MAX_GATES, MAX_INPUTS, MAX_OUTPUTS};

// The names that the largest text declares.
pub const NAMES: usize = MAX_INPUTS + MAX_GATES + MAX_OUTPUTS;

// The node that line i declares when `gates` gates close up to its end.
fn line_word(n: usize, i: usize, gates: usize) -> usize
    requires { (n ≤ max_inputs) × (gates ≤ max_text) }
    ensures { result ≡ line_word n i gates }
{
    if i < n {
        return i;
    }
    if gates == 0 { n } else { n + (gates - 1) }
}

// Fills the tables behind `first` entries: the place of the name that each line from a place on declares, and its node.
fn fill_lines(
    text: &[u8],
    from: usize,
    n: usize,
    first: usize,
    lines: usize,
    places: &mut [usize; NAMES],
    words: &mut [u16; NAMES],
)
    requires { FillReady text.now from n first lines }
    ensures { FilledTo text.now from n first places.old words.old lines
        places.new words.new }
{
    let mut gates = 0;
    let mut at = from;
    for i in 0..lines {
        let line = line_of(&text[at..]);
        gates += line.gates;
        places[first + i] = at + line.name;
        words[first + i] = line_word(n, first + i, gates) as u16;
        at += line.length;
    }
}

// The numbers of the names that the first n lines declare, which are those of the inputs.
pub fn input_names(text: &[u8], n: usize, inputs: &mut [u64; MAX_INPUTS])
    requires { InputRoom text.now n inputs.old }
    ensures { InputNames text.now n inputs.new }
{
    let mut at = 0;
    for i in 0..n {
        let line = line_of(&text[at..]);
        inputs[i] = pack_at(text, at + line.name);
        at += line.length;
    }
}

// The tables of a text with these counts, whose gate lines start at `end`. Ports get a node that nobody asks for.
pub fn declare(
    text: &[u8],
    end: usize,
    c: Counts,
    names: &mut [u64; NAMES],
    places: &mut [usize; NAMES],
    words: &mut [u16; NAMES],
)
    requires { TableRoom c text.now end names.old places.old words.old }
    ensures { Filled c text.now end names.old places.old words.old
        names.new places.new words.new }
{
    let n = c.inputs;
    let behind = c.named + c.outputs;
    fill_lines(text, 0, n, 0, n, places, words);
    fill_lines(text, end, n, n, behind, places, words);
    fill_names(text, &places[..n + behind], names);
}
