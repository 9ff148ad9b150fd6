// Refusal 4 outside never lines: the declarations of a text that repeat another.
ghost use Rattle.text_symbols.specs.Results.{IndexReady, Repeats};

use netlist::Refusal;
use text_lines::counts::Counts;
use text_names::index::enter_all;
use text_names::search::repeat_of_few;

// Refusal 4: the place of the earliest declaration that repeats another. Inputs and gates share one set of names, ports
// have another (SPECIFICATION 1.4). Enters the names of inputs and gates into the index; ports are few, and are
// compared with each other.
pub fn duplicate(
    c: Counts,
    names: &[u64],
    places: &[usize],
    index: &mut [u16],
) -> Result<(), Refusal>
    requires { IndexReady c names.now places.now index.old }
    ensures { Repeats c names.now places.now index.new result }
{
    let nodes = c.inputs + c.named;
    let ports = c.outputs;
    if let Some(i) = enter_all(&names[..nodes], index) {
        return Err(Refusal::DuplicateDeclaration(places[i]));
    }
    match repeat_of_few(&names[nodes..nodes + ports]) {
        Some(j) => Err(Refusal::DuplicateDeclaration(places[nodes + j])),
        None => Ok(()),
    }
}
