// Names as numbers: the bytes of a name, at most MAX_NAME, in one 64-bit number.
ghost use Rattle.std.specs.Prelude.{◌≡◌, ℕ, ◌≤◌, length, get_or, drop};
ghost use Rattle.prelude.specs.Lists.{tab, placed};
ghost use Rattle.netlist.specs.Limits.{max_name};
ghost use Rattle.text_names.specs.Packed.{packed, name_front, packed_at, packed_through};

use words_layout::bytes::is_name_byte;
use words_layout::limits::MAX_NAME;

// How many name bytes stand at the front, at most MAX_NAME.
pub fn name_length(s: &[u8]) -> usize
    ensures { result ≡ length (name_front max_name s.now) }
{
    s.iter()
        .take(MAX_NAME)
        .take_while(|b| is_name_byte(**b))
        .count()
}

// The number of the name with these bytes.
pub fn pack_name(name: &[u8]) -> u64
    requires { length name.now ≤ max_name }
    ensures { result ≡ packed name.now }
{
    let mut r: u64 = 0;
    // A for: the closure of a fold would not know that the number so far has room for one byte more.
    for i in (0..name.len()).rev() {
        r = name[i] as u64 + 256 * r;
    }
    r
}

// The name at the front of `s`, as a number.
pub fn pack(s: &[u8]) -> u64
    ensures { result ≡ packed (name_front max_name s.now) }
{
    pack_name(&s[..name_length(s)])
}

// The bytes from a place of the text on: none behind its end.
pub fn rest_from(text: &[u8], at: usize) -> &[u8]
    ensures { result.now ≡ drop at text.now }
{
    text.get(at..).unwrap_or(&[])
}

// The name at a place of the text, as a number.
#[tactic(auto, unfolding(crate::specs::Packed::name_from, crate::specs::Packed::packed_at))]
pub fn pack_at(text: &[u8], at: usize) -> u64
    ensures { result ≡ packed_at text.now at }
{
    pack(rest_from(text, at))
}

// Fills a table with what `entry` gives at each of these places.
pub fn fill_at_places<T: Copy, F: Fn(usize) -> T>(places: &[usize], entry: F, table: &mut [T])
    requires room { length places.now ≤ length table.old }
    requires callable { F.IsAlwaysCallable entry }
    ensures { (f : ℕ → T) → ((place : ℕ) (v : T) → F.post entry place v → v ≡ f place)
        → table.new ≡ placed (tab (λ i. f (get_or places.now i 0)) (length places.now)) table.old }
{
    for i in 0..places.len() {
        table[i] = entry(places[i]);
    }
}

// The number of the name at each of these places.
pub fn fill_names(text: &[u8], places: &[usize], names: &mut [u64])
    requires { length places.now ≤ length names.old }
    ensures { names.new ≡ placed (tab (packed_through text.now places.now) (length places.now))
        names.old }
{
    fill_at_places(places, |place| pack_at(text, place), names);
}
