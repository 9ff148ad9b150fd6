// Bytes that are filled up with zeros: names in a block's words, keywords in the table of kinds.
ghost use Rattle.std.specs.Prelude.{◌≡◌, ◌≤◌, length, take};
ghost use Rattle.prelude.specs.Lists.{trimmed};

// The length of the bytes without the zeros at their end.
pub fn trimmed_length(bytes: &[u8]) -> usize
    ensures { (result ≤ length bytes.now) × (take result bytes.now ≡ trimmed bytes.now) }
{
    for i in (0..bytes.len()).rev() {
        if bytes[i] != 0 {
            return i + 1;
        }
    }
    0
}
