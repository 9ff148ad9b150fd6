// Words of the arrays, read through a function whose contract says that the result is a word.
ghost use Rattle.std.specs.Prelude.{◌≡◌, ◌<◌, get_or};

// Word i of an array.
pub fn word_of<const N: usize>(words: &[u16; N], i: usize) -> u16
    requires { i < N }
    ensures { result ≡ get_or words.now i 0 }
{
    words[i]
}
