// One cell under a batch of settings, as a tree of multiplexers: of the sixteen bits of its truth word, at each lane
// the one that its operands choose (Shannon's expansion). `used` has a bit at each lane in use.
ghost use Rattle.std.specs.Prelude.{◌≡◌, ◌≤◌};
ghost use Rattle.op_compare_cells.specs.Choices.{choice_word, two_word, four_word, cell_word};

// At each lane the bit of `high` where `by` has one, else that of `low`.
pub fn choose(low: u64, high: u64, by: u64) -> u64
    ensures { result ≡ choice_word low high by }
{
    low ^ ((low ^ high) & by)
}

// Of the truth word's bits `at` and `at` + 1 the one that `a` chooses.
fn choose_of_two(used: u64, truth: usize, a: u64, at: usize) -> u64
    requires { at ≤ 14 }
    ensures { result ≡ two_word used truth a at }
{
    let words = [0, used ^ a, a, used];
    words[(truth >> at) % 4]
}

// Of the truth word's four bits from `at` on the one that `a` and `b` choose.
fn choose_of_four(used: u64, truth: usize, a: u64, b: u64, at: usize) -> u64
    requires { at ≤ 12 }
    ensures { result ≡ four_word used truth a b at }
{
    choose(
        choose_of_two(used, truth, a, at),
        choose_of_two(used, truth, a, at + 2),
        b,
    )
}

// Of all sixteen bits of the truth word the one that the four operands choose.
pub fn cell_word(used: u64, truth: usize, a: u64, b: u64, c: u64, d: u64) -> u64
    ensures { result ≡ cell_word used truth a b c d }
{
    let low = choose(
        choose_of_four(used, truth, a, b, 0),
        choose_of_four(used, truth, a, b, 4),
        c,
    );
    let high = choose(
        choose_of_four(used, truth, a, b, 8),
        choose_of_four(used, truth, a, b, 12),
        c,
    );
    choose(low, high, d)
}
