// One value stored in the first words of a slice, and a slice's words copied into another.
ghost use Rattle.std.specs.Prelude.{◌≡◌, ◌≤◌, length, replicate};
ghost use Rattle.prelude.specs.Lists.{placed};

// Stores `value` in the first `count` words. The library's `fill` of a slice cut in each of the six callers was tried and
// is no plainer: each has to prove the cut, and that what stands behind it stays, which is promised here once.
pub fn fill_words(words: &mut [u16], count: usize, value: u16)
    requires { count ≤ length words.old }
    ensures { words.new ≡ placed (replicate count value) words.old }
{
    words[..count].fill(value);
}

// Copies the words of a slice into another of its length. It is a loop since the library's `copy_from_slice` calls
// `memmove`, a name that the archive for C would need from outside for this alone.
pub fn copy_slice(from: &[u16], to: &mut [u16])
    requires { length from.now ≡ length to.old }
    ensures { to.new ≡ from.now }
{
    for i in 0..from.len() {
        to[i] = from[i];
    }
}
