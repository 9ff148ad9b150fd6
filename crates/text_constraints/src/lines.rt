// Where the never lines of a text stand, by the letter behind each line's opening bracket.
ghost use Rattle.std.specs.Prelude.{◌≡◌, ◌≤◌, length};
ghost use Rattle.netlist.specs.Limits.{max_text};
ghost use Rattle.netlist.specs.Syntax.{Tree};
ghost use Rattle.text_constraints.specs.Runs.{RunReady, Ran};
ghost use Rattle.text_lines.specs.Trees.{TextOf};
ghost use Rattle.text_constraints.specs.Places.{never_lines};

use crate::NeverLines;
use text_lines::next_line;
use words_layout::bytes::byte_at;

// Lines with one letter, up to another line: the place behind them, and how many they are.
#[derive(Drop)]
struct Run {
    end: usize,
    count: usize,
}

// Walks over the lines from `from` on that begin with this letter.
fn run_of(text: &[u8], from: usize, letter: u8) -> Run
    requires { RunReady text.now from letter }
    ensures { Ran letter from text.now result.end result.count }
{
    let mut end = from;
    let mut count = 0;
    // How many lines there are is known only at their end, so a range would be no plainer.
    while byte_at(text, end + 1) == letter {
        end = next_line(text, end);
        count += 1;
    }
    Run { end, count }
}

// Finds the never lines, which stand behind the lines of inputs.
pub fn never_lines(text: &[u8]) -> NeverLines
    requires { length text.now ≤ max_text }
    ensures { (t : Tree) → TextOf t text.now → result ≡ never_lines t }
{
    let before = run_of(text, 0, b'i');
    let nevers = run_of(text, before.end, b'n');
    // Of two runs, so that no `From` makes it.
    NeverLines {
        inputs: before.count,
        at: before.end,
        count: nevers.count,
        end: nevers.end,
    }
}
