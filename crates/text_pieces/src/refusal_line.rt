// The line of a refusal: `(refused NUMBER DETAIL)`, both decimal.
ghost use Rattle.std.specs.Prelude.{◌≤◌, length};
ghost use Rattle.netlist.specs.Answers.{refused};
ghost use Rattle.text_pieces.specs.Shown.{max_line, Shown};

use crate::{put_all, put_decimal};
use netlist::Refusal;
use words_refusals::{detail_of, number_of};

// Writes the line to the start of `out` and answers its length.
pub fn tell(why: Refusal, out: &mut [u8]) -> usize
    requires { max_line ≤ length out.old }
    ensures { Shown (refused why) out.old out.new result }
{
    let number = number_of(why);
    let detail = detail_of(why);
    let end = put_all(out, 0, b"(refused ");
    let end = put_decimal(out, end, number);
    let end = put_all(out, end, b" ");
    let end = put_decimal(out, end, detail);
    put_all(out, end, b")\n")
}
