// Searches in a table of names: the first that is equal to a given one, and the first that repeats one before it.
ghost use Rattle.std.specs.Prelude.{◌≡◌, ◌≤◌, ◌<◌, length};
ghost use Rattle.prelude.specs.Lists.{least, IfBelow};
ghost use Rattle.text_names.specs.Index.{max_pairs};
ghost use Rattle.text_names.specs.Search.{index_of, repeats_at};

use crate::index::{MANY_ENTRIES, enter_while_room};
use words_layout::limits::{MAX_OUTPUTS, MAX_TEXT};

// Up to this many names are compared with each other, without an index: a block's ports, and the pairs of a usual never
// line.
const FEW: usize = MAX_OUTPUTS;

// The most pairs of a line: a pair ` (a 0)` has at least 6 bytes.
pub const MAX_PAIRS: usize = MAX_TEXT / 6;

// The index of the first of the names that is this one.
pub fn find(names: &[u64], name: u64) -> Option<usize>
    ensures { IfBelow (index_of names.now (length names.now) name) (length names.now) result }
{
    names.iter().position(|x| *x == name)
}

// Is name i one of those before it?
fn repeats(names: &[u64], i: usize) -> bool
    requires { i < length names.now }
    ensures { result ≡ repeats_at names.now i }
{
    find(&names[..i], names[i]).is_some()
}

// The index of the first name that repeats one before it; each is compared with those before it.
pub fn repeat_of_few(names: &[u64]) -> Option<usize>
    ensures { IfBelow (least (repeats_at names.now) (length names.now)) (length names.now) result }
{
    (0..names.len()).find(|&i| repeats(names, i))
}

// The index of the first name that repeats one before it; each is entered into an index, and where that has no room for
// one, each is compared with those before it.
fn repeat_of_many(names: &[u64]) -> Option<usize>
    requires { length names.now ≤ max_pairs }
    ensures { IfBelow (least (repeats_at names.now) (length names.now)) (length names.now) result }
{
    let mut index = [0u16; MANY_ENTRIES];
    let i = enter_while_room(names, &mut index)?;
    if repeats(names, i) {
        return Some(i);
    }
    repeat_of_few(names)
}

// The index of the first name that repeats one before it.
pub fn first_repeat(names: &[u64]) -> Option<usize>
    ensures { IfBelow (least (repeats_at names.now) (length names.now)) (length names.now) result }
{
    if names.len() <= FEW {
        return repeat_of_few(names);
    }
    if names.len() <= MAX_PAIRS {
        return repeat_of_many(names);
    }
    repeat_of_few(names)
}
