// The tables of Cover's core: a byte for each of the 3^n assignments of n inputs, and the ternary weight of each mask
// of n bits.
ghost use Rattle.std.specs.Prelude.{◌+◌, ◌*◌, ◌^◌, ◌≤◌, ◌<◌, length};
ghost use Rattle.netlist.specs.Limits.{max_inputs};
ghost use Rattle.theory_cover.specs.Tables.{Weighed, Filled, HalvesJoined};

use crate::settings::Settings;

// The weight of each mask of n bits, its bits read as ternary digits: three times that of its half, and the lowest bit.
// The bound on n stands here, since no value says it before the weights are there.
pub fn fill_weights(n: usize, weights: &mut [u32])
    requires { (n ≤ max_inputs) × (2 ^ n ≤ length weights.old) }
    ensures { Weighed weights.new n }
{
    let count = 1usize << n;
    weights[0] = 0;
    for mask in 1..count {
        weights[mask] = 3 * weights[mask / 2] + (mask % 2) as u32;
    }
}

// The assignments with one more free input, behind those with this input at 0 and those with it at 1: sound where both
// are.
fn join_halves(sound: &mut [u8], k: usize, power: usize)
    requires { (2 * power ≤ k) × (k + power ≤ length sound.old) }
    ensures { HalvesJoined sound.old sound.new k power power }
{
    for j in 0..power {
        sound[k + j] = sound[k - power + j] & sound[k - 2 * power + j];
    }
}

// Puts the byte of a setting at its number k, and those of the assignments with free inputs up to the number of the
// next setting: where its lowest inputs are at 1, both halves are there for each of them. Gives that next number.
fn add_setting(settings: &Settings, setting: usize, k: usize, sound: &mut [u8]) -> usize
    requires { Filled settings.now.settled.now sound.old settings.now.inputs setting k
        × (setting < 2 ^ settings.now.inputs) }
    ensures { Filled settings.now.settled.now sound.new settings.now.inputs (setting + 1) result }
{
    sound[k] = if settings.settled[setting] == 1 { 1 } else { 0 };
    // The walk ends at the lowest input at 0, which it comes to bit by bit.
    let mut end = k + 1;
    let mut power: usize = 1;
    let mut i: usize = 0;
    while (setting >> i) % 2 == 1 {
        join_halves(sound, end, power);
        end += power;
        power *= 3;
        i += 1;
    }
    end
}

// A byte for each assignment: 1 where it is sound. Gives their number.
pub fn fill_sound(settings: &Settings, sound: &mut [u8]) -> usize
    requires { 3 ^ settings.now.inputs ≤ length sound.old }
    ensures { Filled settings.now.settled.now sound.new settings.now.inputs (2 ^ settings.now.inputs) result }
{
    let count = 1usize << settings.inputs;
    let mut k = 0;
    for setting in 0..count {
        k = add_setting(settings, setting, k, sound);
    }
    k
}
