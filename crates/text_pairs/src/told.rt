// Tables filled from pairs, whatever says where each pair stands and what it gives.
ghost use Rattle.std.specs.Prelude.{◌≡◌, List, ℕ, ◌≤◌, ◌<◌, length};
ghost use Rattle.prelude.specs.Lists.{tab, placed};
ghost use Rattle.netlist.specs.Limits.{max_text};
ghost use Rattle.text_pairs.specs.PairBytes.{pair_place, input_code};
ghost use Rattle.text_pairs.specs.Tables.{Gives};

use crate::tables::name_size;
use text_names::search::find;

// Fills a table with what `entry` gives at the place of each pair's name; the first pair's space is at `at`.
pub fn fill_at_names<T: Copy, F: Fn(usize) -> T>(
    s: &[u8],
    at: usize,
    count: usize,
    entry: F,
    table: &mut [T],
)
    requires near { (at ≤ max_text) × (count ≤ max_text) }
    requires room { count ≤ length table.old }
    requires callable { F.IsAlwaysCallable entry }
    ensures { (f : ℕ → T) → ((i : ℕ) (v : T) → F.post entry (pair_place s.now at i) v → v ≡ f i)
        → table.new ≡ placed (tab f count) table.old }
{
    let mut place = at + 2;
    for i in 0..count {
        table[i] = entry(place);
        place += name_size(s, place) + 5;
    }
}

// The value that the pairs give each input, where `code` is that of a pair: 2, undefined, where they do not name it.
pub fn fill_given<F: Fn(usize) -> u8>(names: &[u64], inputs: &[u64], code: F, setting: &mut [u8])
    requires callable { (i : ℕ) → i < length names.now → F.pre code i }
    requires room { length inputs.now ≤ length setting.old }
    ensures { (codes : List ℕ) → Gives (F.post code) (length names.now) codes
        → setting.new ≡ placed
        (tab (input_code names.now codes (length names.now) inputs.now) (length inputs.now))
        setting.old }
{
    for j in 0..inputs.len() {
        setting[j] = match find(names, inputs[j]) {
            Some(i) => code(i),
            None => 2,
        };
    }
}
