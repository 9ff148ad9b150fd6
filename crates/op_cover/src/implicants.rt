// Cover's core (SPECIFICATION 4), over a table that says which settings are settled: the sound and minimal partial
// assignments of n inputs, in order. These are the prime implicants of the table; as in Quine's and McCluskey's method,
// an assignment with a free input is sound where both halves are. Nothing of blocks or of never lines is known here.
ghost use Rattle.std.specs.Prelude.{◌^◌, ◌≤◌, length};
ghost use Rattle.netlist.specs.Limits.{max_inputs};
ghost use Rattle.theory_cover.specs.Over.{cover_over};
ghost use Rattle.theory_cover.specs.Tables.{settled_by};
ghost use Rattle.theory_cover.specs.Entries.{EntriesWritten};

use crate::entries::Primes;
use crate::everywhere::{are_all_settled, write_nothing};
use crate::minimal::keep_minimal;
use crate::settings::Settings;
use crate::tables::{fill_sound, fill_weights};
use words_layout::limits::{MAX_ASSIGNMENTS, MAX_SETTINGS};

// Up to this number of inputs the tables are small: what is made is also cleared, so small tables save time.
const FEW_INPUTS: usize = 8;

const FEW_SETTINGS: usize = 1 << FEW_INPUTS;

const FEW_ASSIGNMENTS: usize = 6561;

// The number of entries; their words, two an entry, where `out` has room for all of them. There are as many masks as
// settings.
pub fn cover_entries(settings: &Settings, out: &mut [u16]) -> usize
    ensures { EntriesWritten (cover_over (settled_by settings.now.settled.now) settings.now.inputs)
        out.old out.new result }
{
    if are_all_settled(settings) {
        return write_nothing(out);
    }
    if settings.inputs <= FEW_INPUTS {
        return cover_with::<FEW_ASSIGNMENTS, FEW_SETTINGS>(settings, out);
    }
    cover_with::<MAX_ASSIGNMENTS, MAX_SETTINGS>(settings, out)
}

// `cover_entries` with tables of A assignments and S settings. Their lengths stay parameters, so that no proof computes
// the length of half a million elements.
fn cover_with<const A: usize, const S: usize>(settings: &Settings, out: &mut [u16]) -> usize
    requires many { (3 ^ settings.now.inputs ≤ A) × (2 ^ settings.now.inputs ≤ S) }
    requires fits { (A ≤ 3 ^ max_inputs) × (S ≤ 2 ^ max_inputs) }
    ensures { EntriesWritten (cover_over (settled_by settings.now.settled.now) settings.now.inputs)
        out.old out.new result }
{
    let mut sound = [0u8; A];
    let mut weights = [0u32; S];
    cover_within(settings, &mut sound, &mut weights, out)
}

// `cover_entries` with the tables of soundness and of weights lent.
fn cover_within(
    settings: &Settings,
    sound: &mut [u8],
    weights: &mut [u32],
    out: &mut [u16],
) -> usize
    requires { (3 ^ settings.now.inputs ≤ length sound.old) × (2 ^ settings.now.inputs ≤ length weights.old) }
    ensures { EntriesWritten (cover_over (settled_by settings.now.settled.now) settings.now.inputs)
        out.old out.new result }
{
    let inputs = settings.inputs;
    fill_weights(inputs, weights);
    let size = fill_sound(settings, sound);
    let marks = &mut sound[..size];
    let total = keep_minimal(inputs, marks);
    let primes = Primes {
        marks,
        weights,
        inputs,
    };
    primes.write_entries(total, out);
    total
}
