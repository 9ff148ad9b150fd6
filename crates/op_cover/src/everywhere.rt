// Blocks that are settled under every setting: their cover is the one assignment that fixes nothing.
ghost use Rattle.std.specs.Prelude.{◌≡◌, [], ◌∷◌, ◌^◌};
ghost use Rattle.prelude.specs.Lists.{all, up_to};
ghost use Rattle.theory_cover.specs.Over.{nothing};
ghost use Rattle.theory_cover.specs.Tables.{settled_by};
ghost use Rattle.theory_cover.specs.Entries.{EntriesWritten};

use crate::settings::Settings;

// Whether every setting is settled.
pub fn are_all_settled(settings: &Settings) -> bool
    ensures { result ≡ all (settled_by settings.now.settled.now) (up_to (2 ^ settings.now.inputs)) }
{
    settings.settled[..1 << settings.inputs]
        .iter()
        .all(|byte| *byte == 1)
}

// The words of the one entry that fixes nothing, where `out` has room for them.
pub fn write_nothing(out: &mut [u16]) -> usize
    ensures { EntriesWritten (nothing ∷ []) out.old out.new result }
{
    if out.len() >= 2 {
        out[0] = 0;
        out[1] = 0;
    }
    1
}
