// Resolving the expressions of a text that is known to be the print of a tree, in one walk over its lines of gates and
// outputs (`lines`), over each expression (`walk`), and down to names and constants (`leaves`): the first name that is
// not declared, and the words of gates and outputs. Never lines have no expressions.
#![tactic(auto)]

ghost use Rattle.text_symbols.specs.Results.{NodesIndexed};
ghost use Rattle.text_expressions.specs.Resolution.{ResolveReady, Resolved};

use lines::{gate_lines, output_lines};
use netlist::Refusal;
use symbols::Symbols;
use text_lines::counts::Counts;
use words_layout::limits::MAX_GATES;
use words_layout::offsets::GATE_SIZE;

mod leaves;
mod lines;
mod symbols;
mod walk;

// A line, or some lines: the bytes left behind them, the gates or outputs up to there, and `unknown` as in `Found` of
// `walk`.
#[derive(Drop)]
pub struct Walked {
    pub left: usize,
    pub number: usize,
    pub unknown: Option<usize>,
}

// Fills in the words of gates and outputs of a text with these counts, whose gate lines start at `end`, and these
// tables of its declared names and their nodes, whose names the index holds. 5: the place of the first name that a gate
// or an output uses and that is not declared.
pub fn resolve(
    text: &[u8],
    end: usize,
    c: Counts,
    names: &[u64],
    words: &[u16],
    index: &[u16],
    gates: &mut [u16; GATE_SIZE * MAX_GATES],
    outputs: &mut [u16],
) -> Result<(), Refusal>
    requires resolve_ready { ResolveReady text.now end c names.now words.now gates.old outputs.old }
    requires nodes_indexed { NodesIndexed c names.now index.now }
    ensures { Resolved text.now end c names.now words.now gates.old
        gates.new
        outputs.old outputs.new result }
{
    let length = text.len();
    let n = c.inputs;
    let nodes = n + c.named;
    let symbols = Symbols {
        names: &names[..nodes],
        words: &words[..nodes],
        index,
    };
    let walked = gate_lines(&text[end..], c.named, n, &symbols, gates);
    let last = output_lines(
        &text[length - walked.left..],
        c.outputs,
        &symbols,
        walked.unknown,
        outputs,
    );
    match last.unknown {
        None => Ok(()),
        Some(left) => Err(Refusal::UndeclaredName(length - left)),
    }
}
