// Is a list a permutation of the numbers below m, and if so, its inverse: the place of each number.
ghost use Rattle.std.specs.Prelude.{◌≤◌, length};
ghost use Rattle.netlist.specs.Limits.{max_gates};
ghost use Rattle.op_gather.specs.Places.{Places, MarkReady};

use words_layout::fill::fill_words;

// Marks the place of each number; false at a number that isn't below m, the list's length, or is marked already. A place
// of m is no mark.
fn mark_places(order: &[u16], places: &mut [u16]) -> bool
    requires { MarkReady (length order.now) order.now places.old }
    ensures { Places (length order.now) order.now result places.new }
{
    let m = order.len();
    for t in 0..m {
        let j = order[t] as usize;
        if m <= j {
            return false;
        }
        if (places[j] as usize) < m {
            return false;
        }
        places[j] = t as u16;
    }
    true
}

// Is the list each number below m once? Then `places` has the place of each.
pub fn find_places(order: &[u16], m: usize, places: &mut [u16]) -> bool
    requires { (m ≤ max_gates) × (m ≤ length places.old) }
    ensures { Places m order.now result places.new }
{
    if order.len() != m {
        return false;
    }
    fill_words(places, m, m as u16);
    mark_places(order, places)
}
