// The names of pairs against the inputs of a block: refusals 4 and 5, and the value that each input is given.
ghost use Rattle.std.specs.Prelude.{◌≡◌, true, List, [], ℕ, ◌≤◌, ◌<◌, length};
ghost use Rattle.prelude.specs.Lists.{all, tab, placed, least, IfBelow};
ghost use Rattle.netlist.specs.declared.Refusal.TheVariants.{DuplicateDeclaration, UndeclaredName};
ghost use Rattle.words_refusals.specs.Tests.{test_at};
ghost use Rattle.netlist.specs.Reading.{first_repeat, first_outside};
ghost use Rattle.netlist.specs.Netlist.{Name};
ghost use Rattle.netlist.specs.Syntax.{Pair, is_legal_pair};
ghost use Rattle.text_pairs.specs.PairBytes.{input_code};
ghost use Rattle.text_pairs.specs.Tables.{pair_mentions, is_outside, NamesAre, PlacesAre, InputsAre};

use crate::told::fill_given;
use netlist::Refusal;
use text_names::search::{find, first_repeat};

// Refusal 4: the place of the first name that is one of those before it.
pub fn test_repeat(names: &[u64], places: &[usize]) -> Result<(), Refusal>
    requires { length names.now ≤ length places.now }
    ensures { (ps : List Pair) (at : ℕ) → all is_legal_pair ps ≡ true → length names.now ≡ length ps
        → NamesAre ps names.now
        → PlacesAre ps at places.now → result ≡ test_at (first_repeat [] (pair_mentions ps at))
        DuplicateDeclaration }
{
    match first_repeat(names) {
        Some(i) => Err(Refusal::DuplicateDeclaration(places[i])),
        None => Ok(()),
    }
}

// The index of the first name that is none of the inputs.
pub fn first_outside(names: &[u64], inputs: &[u64]) -> Option<usize>
    ensures { IfBelow (least (is_outside names.now inputs.now (length inputs.now)) (length names.now)) (length names.now)
        result }
{
    // Not position over the names: measured, Read of a text full of pairs is one part in seventeen slower by it.
    (0..names.len()).find(|&i| find(inputs, names[i]).is_none())
}

// Refusal 5: the place of the first name that is none of the inputs.
pub fn test_outside(names: &[u64], places: &[usize], inputs: &[u64]) -> Result<(), Refusal>
    requires { length names.now ≤ length places.now }
    ensures { (ps : List Pair) (at : ℕ) (known : List Name) → all is_legal_pair ps ≡ true
        → length names.now ≡ length ps
        → NamesAre ps names.now
        → PlacesAre ps at places.now → InputsAre known (length inputs.now) inputs.now
        → result ≡ test_at (first_outside known (pair_mentions ps at)) UndeclaredName }
{
    match first_outside(names, inputs) {
        Some(i) => Err(Refusal::UndeclaredName(places[i])),
        None => Ok(()),
    }
}

// The value that the pairs give each input.
pub fn fill_setting(names: &[u64], codes: &[u8], inputs: &[u64], setting: &mut [u8])
    requires { (length names.now ≤ length codes.now) × (length inputs.now ≤ length setting.old) }
    ensures { setting.new ≡ placed
        (tab (input_code names.now codes.now (length names.now) inputs.now) (length inputs.now))
        setting.old }
{
    fill_given(names, inputs, |i| codes[i], setting);
}
