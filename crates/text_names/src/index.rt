// The symbol table's index: a hash table by open addressing with linear probing (Knuth, The Art of Computer Programming
// 3, 6.4), so that a name is found without going through all of them.
ghost use Rattle.std.specs.Prelude.{◌≡◌, ℕ, ◌≤◌, length, get_or};
ghost use Rattle.prelude.specs.Lists.{IfBelow};
ghost use Rattle.text_names.specs.Search.{index_of, repeats_at, SoughtTo};
ghost use Rattle.text_names.specs.Index.{hash_of, stops_at, WalkTo, Held, Indexed, EnterReady, NameEntered, AllEntered};

use words_layout::limits::{MAX_GATES, MAX_INPUTS};

// A prime, above the number of different names that one never line has room for.
const HASHES: u64 = 8101;

// The hashes as a number of entries: a walk begins at a hash and passes at most one entry for each name.
const HASH_ENTRIES: usize = HASHES as usize;

// The entries of an index of a long line's names. It may have no room for a name whose hash is great.
pub const MANY_ENTRIES: usize = HASH_ENTRIES + 2048;

// The entries of an index of a text's nodes.
pub const INDEX_SIZE: usize = HASH_ENTRIES + MAX_INPUTS + MAX_GATES + 1;

// Where the walk of a name begins.
fn hash(name: u64) -> usize
    ensures { result ≡ hash_of name }
{
    (name % HASHES) as usize
}

// Does the walk of this name stop at this entry?
fn stops_at(names: &[u64], entry: usize, name: u64) -> bool
    requires { entry ≤ length names.now }
    ensures { result ≡ stops_at names.now name entry }
{
    entry == 0 || names[entry - 1] == name
}

// The entry where the walk of this name ends, where it ends in the index.
fn walk(names: &[u64], index: &[u16], name: u64) -> Option<usize>
    requires { (j : ℕ) → get_or index.now j 0 ≤ length names.now }
    ensures { WalkTo names.now index.now name result }
{
    (hash(name)..index.len()).find(|&at| stops_at(names, index[at] as usize, name))
}

// The number of the table's name that is equal to this one.
pub fn find_indexed(names: &[u64], index: &[u16], name: u64) -> Option<usize>
    requires { ∥ Indexed names.now (length names.now) index.now ∥₁ }
    ensures { IfBelow (index_of names.now (length names.now) name) (length names.now) result }
{
    let at = walk(names, index, name)?;
    (index[at] as usize).checked_sub(1)
}

// Enters name i behind those before it, where its walk ends in the index; tells whether it could not: it is one of them
// already, or the index is full.
fn enter(names: &[u64], i: usize, index: &mut [u16]) -> bool
    requires { EnterReady names.now i index.old }
    ensures { NameEntered names.now i index.old index.new result }
{
    let Some(at) = walk(names, index, names[i]) else {
        return true;
    };
    if index[at] != 0 {
        return true;
    }
    index[at] = (i + 1) as u16;
    false
}

// Enters the names into an empty index up to the first that is one of those before it or has no room, and tells its
// number.
pub fn enter_while_room(names: &[u64], index: &mut [u16]) -> Option<usize>
    requires { Held names.now 0 index.old }
    ensures sought { SoughtTo (repeats_at names.now) (length names.now) result }
    ensures entered { Indexed names.now 0 index.old → AllEntered names.now index.new result }
{
    for i in 0..names.len() {
        if enter(names, i, index) {
            return Some(i);
        }
    }
    None
}

// Enters the names into an empty index with room for all, up to the first that is one of those before it, and tells its
// number.
pub fn enter_all(names: &[u64], index: &mut [u16]) -> Option<usize>
    requires { Indexed names.now 0 index.old }
    ensures { AllEntered names.now index.new result }
{
    enter_while_room(names, index)
}
