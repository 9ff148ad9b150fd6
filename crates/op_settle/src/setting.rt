// Refusal 7 (SPECIFICATION 7.5): the bytes of a setting.
ghost use Rattle.std.specs.Prelude.{◌≡◌};
ghost use Rattle.prelude.specs.Lists.{all};
ghost use Rattle.netlist.specs.StoredBlock.{decode};
ghost use Rattle.netlist.specs.Operations.{is_bad_setting};
ghost use Rattle.netlist.specs.declared.Refusal.TheVariants.{BadSetting};
ghost use Rattle.words_refusals.specs.Tests.{test_of};
ghost use Rattle.op_settle.specs.Tests.{at_most, is_bad_bytes};

use netlist::Refusal;
use words_layout::offsets::inputs_of;
use words_refusals::refuse_if;

// The highest byte of a setting: undefined.
const MOST: u8 = 2;

// Is no byte of the setting above `most`?
fn none_above(bytes: &[u8], most: u8) -> bool
    ensures { result ≡ all (at_most most) bytes.now }
{
    bytes.iter().all(|b| *b <= most)
}

// Refusal 7: has a setting one byte for each of n inputs, and none above `most`?
pub fn test_bytes(n: usize, most: u8, setting: &[u8]) -> Result<(), Refusal>
    ensures { result ≡ test_of (is_bad_bytes n most setting.now) BadSetting }
{
    if setting.len() != n {
        return Err(Refusal::BadSetting);
    }
    refuse_if(!none_above(setting, most), Refusal::BadSetting)
}

// Refusal 7 of a setting for a block's inputs, each 0, 1 or undefined.
pub fn test_setting(words: &[u16], setting: &[u8]) -> Result<(), Refusal>
    ensures { result ≡ test_of (is_bad_setting (decode words.now) setting.now) BadSetting }
{
    test_bytes(inputs_of(words), MOST, setting)
}
