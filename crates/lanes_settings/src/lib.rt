// The settings of a block, walked over in batches of up to 64, a bit of a word for each: how many there are, which
// never come (`nevers`), under which an output is undefined and which count once a batch is decided (`decided`,
// `outputs`, `settled`), and the lowest that may come and is not settled (`lowest`).
#![tactic(auto)]

ghost use Rattle.std.specs.Prelude.{◌≡◌, ◌^◌, ◌≤◌};
ghost use Rattle.netlist.specs.Limits.{max_inputs};

pub mod decided;
pub mod lowest;
pub mod nevers;
pub mod outputs;
pub mod settled;

// How many settings n inputs have.
pub fn setting_count(n: usize) -> usize
    requires { n ≤ max_inputs }
    ensures { result ≡ 2 ^ n }
{
    1usize << n
}
