// The walk over the lines of gates and outputs. Each line's reader gets the rest of the text.
ghost use Rattle.std.specs.Prelude.{None, ◌≡◌, [], ◌∷◌, ◌++◌, ℕ, ◌+◌, ◌*◌, ◌≤◌, length};
ghost use Rattle.std.proofs.lemmas.List.Edits.{sets};
ghost use Rattle.netlist.specs.StoredBlock.{output_size};
ghost use Rattle.netlist.specs.Limits.{max_gates, max_outputs};
ghost use Rattle.text_expressions.specs.Lines.{gate_form, output_form, LineHere, LineRead, LinesHere, LinesRead};
ghost use Rattle.text_names.specs.Ports.{port_words};

use crate::Walked;
use crate::leaves::name_here;
use crate::symbols::Symbols;
use crate::walk::expression;
use text_block::put_name;
use text_names::pack::{name_length, pack};
use words_layout::limits::MAX_GATES;
use words_layout::offsets::{GATE_SIZE, NAME_SIZE, OUTPUT_SIZE};

// Reads `(gate NAME EXPR)` and its LF, and writes the gates in it.
fn gate_line(
    s: &[u8],
    n: usize,
    symbols: &Symbols,
    first: usize,
    unknown: Option<usize>,
    gates: &mut [u16; GATE_SIZE * MAX_GATES],
) -> Walked
    requires line_here { LineHere gate_form max_gates s.now n symbols.now.names.now symbols.now.words.now first
        gates.old }
    ensures { LineRead gate_form s.now n symbols.now.names.now symbols.now.words.now first unknown
        gates.old gates.new result }
{
    let at = 8 + name_length(&s[6..]);
    let one = expression(&s[at..], n, first, unknown, symbols, gates);
    // The bracket and the LF behind the expression are read here, so that no `From` makes it.
    Walked {
        left: one.left - 2,
        number: one.gates,
        unknown: one.unknown,
    }
}

// Writes an output's five words: the port's name and the node.
fn put_output(outputs: &mut [u16], number: usize, port: u64, word: u16)
    requires { output_size * number + output_size ≤ length outputs.old }
    ensures { outputs.new ≡ sets outputs.old (output_size * number)
        (port_words port ++ (word ∷ [])) }
{
    let at = OUTPUT_SIZE * number;
    put_name(outputs, at, port);
    outputs[at + NAME_SIZE] = word;
}

// Reads `(out PORT NAME)` and its LF, and writes the output.
fn output_line(
    s: &[u8],
    symbols: &Symbols,
    first: usize,
    unknown: Option<usize>,
    outputs: &mut [u16],
) -> Walked
    requires by_index { (n : ℕ) × LineHere output_form max_outputs s.now n symbols.now.names.now symbols.now.words.now
        first outputs.old }
    ensures { (n : ℕ)
        → LineRead output_form s.now n symbols.now.names.now symbols.now.words.now first unknown
        outputs.old outputs.new result }
{
    let at = 6 + name_length(&s[5..]);
    let shown = name_here(&s[at..], symbols, unknown);
    put_output(outputs, first, pack(&s[5..]), shown.word);
    // The bracket and the LF behind the name are read here, so that no `From` makes it.
    Walked {
        left: shown.left - 2,
        number: first + 1,
        unknown: shown.unknown,
    }
}

// Reads all gate lines.
pub fn gate_lines(
    text: &[u8],
    lines: usize,
    n: usize,
    symbols: &Symbols,
    gates: &mut [u16; GATE_SIZE * MAX_GATES],
) -> Walked
    requires lines_here { LinesHere gate_form max_gates lines text.now n symbols.now.names.now symbols.now.words.now
        gates.old }
    ensures { LinesRead gate_form lines text.now n symbols.now.names.now symbols.now.words.now None
        gates.old gates.new result }
{
    let mut walked = Walked {
        left: text.len(),
        number: 0,
        unknown: None,
    };
    for i in 0..lines {
        let rest = &text[text.len() - walked.left..];
        walked = gate_line(rest, n, symbols, walked.number, walked.unknown, gates);
    }
    walked
}

// Reads all output lines.
pub fn output_lines(
    text: &[u8],
    lines: usize,
    symbols: &Symbols,
    seen: Option<usize>,
    outputs: &mut [u16],
) -> Walked
    requires by_index { (n : ℕ) × LinesHere output_form max_outputs lines text.now n symbols.now.names.now
        symbols.now.words.now outputs.old }
    ensures { (n : ℕ)
        → LinesRead output_form lines text.now n symbols.now.names.now symbols.now.words.now seen
        outputs.old outputs.new result }
{
    let mut walked = Walked {
        left: text.len(),
        number: 0,
        unknown: seen,
    };
    for i in 0..lines {
        let rest = &text[text.len() - walked.left..];
        walked = output_line(rest, symbols, walked.number, walked.unknown, outputs);
    }
    walked
}
