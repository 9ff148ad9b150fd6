// The never lines: each fixes some input, and only inputs that are there (SPECIFICATION 2.4).
ghost use Rattle.std.specs.Prelude.{◌≡◌, ◌≤◌};
ghost use Rattle.netlist.specs.Limits.{max_inputs, max_nevers};
ghost use Rattle.words_layout.specs.Bounds.{max_word, place_room};
ghost use Rattle.theory_encoding.specs.Rules.{never_rule};
ghost use Rattle.words_block.specs.Steps.{never_rule_at, nevers_rule};

use words_layout::masks::are_masks;
use words_layout::offsets::NEVER_SIZE;
use words_layout::read::word_at;

// Does the never line whose two masks are at `at` keep its rule?
fn fits(words: &[u16], n: usize, at: usize) -> bool
    requires n_le_max_inputs { n ≤ max_inputs }
    requires at_le_max_word { at ≤ max_word }
    ensures { result ≡ never_rule words.now n at }
{
    let fixed = word_at(words, at);
    0 < fixed && are_masks(n, fixed, word_at(words, at + 1))
}

// Does never line i, of those from `at` on, keep its rule?
fn fits_at(words: &[u16], n: usize, at: usize, i: usize) -> bool
    requires n_le_max_inputs { n ≤ max_inputs }
    requires at_le_place_room { at ≤ place_room }
    requires i_le_max_nevers { i ≤ max_nevers }
    ensures { result ≡ never_rule_at words.now n at i }
{
    fits(words, n, at + NEVER_SIZE * i)
}

// Do all l never lines, from `at` on, keep their rule?
pub fn fit(words: &[u16], n: usize, at: usize, l: usize) -> bool
    requires n_le_max_inputs { n ≤ max_inputs }
    requires at_le_place_room { at ≤ place_room }
    requires l_le_max_nevers { l ≤ max_nevers }
    ensures { result ≡ nevers_rule words.now n at l }
{
    (0..l).all(|i| fits_at(words, n, at, i))
}
