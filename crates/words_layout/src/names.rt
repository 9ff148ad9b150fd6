// Stored names, compared word by word (SPECIFICATION 2.2).
ghost use Rattle.std.specs.Prelude.{◌≡◌, ◌≤◌};
ghost use Rattle.prelude.specs.Lists.{all, up_to};
ghost use Rattle.netlist.specs.StoredBlock.{name_size};
ghost use Rattle.words_layout.specs.Bounds.{max_word};
ghost use Rattle.words_layout.specs.Names.{same_word_at};

use crate::offsets::NAME_SIZE;
use crate::read::word_at;

// Do the two places hold the same name?
pub fn is_same(ours: &[u16], at: usize, theirs: &[u16], other: usize) -> bool
    requires at_le_max_word { at ≤ max_word }
    requires other_le_max_word { other ≤ max_word }
    ensures { result ≡ all (same_word_at ours.now at theirs.now other) (up_to name_size) }
{
    (0..NAME_SIZE).all(|i| word_at(ours, at + i) == word_at(theirs, other + i))
}
