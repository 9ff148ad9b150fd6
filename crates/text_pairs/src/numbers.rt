// Pairs of a line by one table, of their names as numbers: where a pair stands and what it gives is read again where it
// is asked. So a line may have as many pairs as a text has room for.
ghost use Rattle.std.specs.Prelude.{◌≡◌, List, [], ◌+◌, ◌≤◌, length};
ghost use Rattle.prelude.specs.Lists.{tab, placed};
ghost use Rattle.netlist.specs.declared.Refusal.TheVariants.{DuplicateDeclaration, UndeclaredName};
ghost use Rattle.words_refusals.specs.Tests.{test_at};
ghost use Rattle.netlist.specs.Limits.{max_text, max_inputs};
ghost use Rattle.netlist.specs.Netlist.{Name};
ghost use Rattle.netlist.specs.Reading.{first_repeat, first_outside};
ghost use Rattle.netlist.specs.Syntax.{Pair};
ghost use Rattle.text_names.specs.Index.{max_pairs};
ghost use Rattle.text_pairs.specs.PairBytes.{pair_place, pair_number, pair_codes, input_code};
ghost use Rattle.text_pairs.specs.Tables.{PairsAt, pair_mentions, NamesAre, InputsAre, NumberRoom, NumbersReady};

use crate::given::first_outside;
use crate::tables::{code_at, name_size};
use crate::told::{fill_at_names, fill_given};
use netlist::Refusal;
use text_names::pack::pack_at;
use text_names::search::{MAX_PAIRS, first_repeat};
use words_layout::limits::MAX_INPUTS;

// The number of each pair's name; the first pair's space is at `at`.
pub fn fill_numbers(s: &[u8], at: usize, count: usize, names: &mut [u64; MAX_PAIRS])
    requires { NumberRoom at count names.old }
    ensures { names.new ≡ placed (tab (pair_number s.now at) count) names.old }
{
    fill_at_names(s, at, count, |place| pack_at(s, place), names);
}

// The place of the name of pair i.
fn pair_place(s: &[u8], at: usize, i: usize) -> usize
    requires { (at ≤ max_text) × (i ≤ max_pairs) }
    ensures { result ≡ pair_place s.now at i }
{
    let mut place = at + 2;
    for k in 0..i {
        place += name_size(s, place) + 5;
    }
    place
}

// The place of the name of pair i in a text in which the line starts at place `base`.
fn place_in_text(s: &[u8], at: usize, base: usize, i: usize) -> usize
    requires { (base ≤ max_text) × (at ≤ max_text) × (i ≤ max_pairs) }
    ensures { result ≡ base + pair_place s.now at i }
{
    base + pair_place(s, at, i)
}

// Refusal 4: the place of the first name that is one of those before it, where the line starts at place `base` of its
// text.
pub fn find_repeat(s: &[u8], at: usize, base: usize, names: &[u64]) -> Result<(), Refusal>
    requires { NumbersReady at base names.now }
    ensures { (ps : List Pair) → PairsAt at ps s.now → length names.now ≡ length ps
        → NamesAre ps names.now
        → result ≡ test_at (first_repeat [] (pair_mentions ps (base + at))) DuplicateDeclaration }
{
    match first_repeat(names) {
        Some(i) => Err(Refusal::DuplicateDeclaration(place_in_text(s, at, base, i))),
        None => Ok(()),
    }
}

// Refusal 5: the place of the first name that is none of the inputs, where the line starts at place `base` of its text.
pub fn find_outside(
    s: &[u8],
    at: usize,
    base: usize,
    names: &[u64],
    inputs: &[u64],
) -> Result<(), Refusal>
    requires { NumbersReady at base names.now }
    ensures { (ps : List Pair) (known : List Name) → PairsAt at ps s.now → length names.now ≡ length ps
        → NamesAre ps names.now
        → InputsAre known (length inputs.now) inputs.now
        → result ≡ test_at (first_outside known (pair_mentions ps (base + at))) UndeclaredName }
{
    match first_outside(names, inputs) {
        Some(i) => Err(Refusal::UndeclaredName(place_in_text(s, at, base, i))),
        None => Ok(()),
    }
}

// The value that the pairs give each input.
pub fn fill_values(
    s: &[u8],
    at: usize,
    names: &[u64],
    inputs: &[u64],
    setting: &mut [u8; MAX_INPUTS],
)
    requires { (at ≤ max_text) × (length names.now ≤ max_pairs) × (length inputs.now ≤ max_inputs) }
    ensures { setting.new ≡ placed
        (tab (input_code names.now (pair_codes s.now at (length names.now)) (length names.now) inputs.now)
        (length inputs.now))
        setting.old }
{
    let code = |i| code_at(s, pair_place(s, at, i));
    fill_given(names, inputs, code, setting);
}
