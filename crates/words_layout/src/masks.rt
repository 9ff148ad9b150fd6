// The two masks of an assignment of inputs, as never lines and the records of a sheet have them: which pairs are legal
// (SPECIFICATION 4.1).
ghost use Rattle.std.specs.Prelude.{◌≡◌, ◌≤◌};
ghost use Rattle.netlist.specs.Limits.{max_inputs};
ghost use Rattle.netlist.specs.Assignments.{is_within, are_masks};

// Does `ones` have a bit below n only where `fixed` has one?
fn is_within(n: usize, fixed: usize, ones: usize) -> bool
    requires { n ≤ max_inputs }
    ensures { result ≡ is_within n fixed ones }
{
    (0..n).all(|i| (ones >> i) % 2 <= (fixed >> i) % 2)
}

// Are these the masks of an assignment: no bit at or above n, and none in `ones` that is not in `fixed`?
pub fn are_masks(n: usize, fixed: usize, ones: usize) -> bool
    requires { n ≤ max_inputs }
    ensures { result ≡ are_masks n fixed ones }
{
    let limit = 1usize << n;
    if limit <= fixed {
        return false;
    }
    if limit <= ones {
        return false;
    }
    is_within(n, fixed, ones)
}
