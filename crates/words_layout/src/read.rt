// Words of a slice, read with 0 past the end, as the definitions read them; and words that are known to be there.
ghost use Rattle.std.specs.Prelude.{◌≡◌, ◌<◌, length, get_or};

// The word at `i`, or 0.
pub fn word_at(words: &[u16], i: usize) -> usize
    ensures { result ≡ get_or words.now i 0 }
{
    if i < words.len() {
        words[i] as usize
    } else {
        0
    }
}

// The word at `i`, which is below the slice's length.
pub fn word_in(words: &[u16], i: usize) -> usize
    requires { i < length words.now }
    ensures { result ≡ get_or words.now i 0 }
{
    words[i] as usize
}
