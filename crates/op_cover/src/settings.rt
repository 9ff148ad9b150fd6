// The table of settled settings, over which the core of Cover works.
ghost use Rattle.std.specs.Prelude.{◌^◌, ◌≤◌, length};
ghost use Rattle.netlist.specs.Limits.{max_inputs};

// A byte for each setting of so many inputs: 1 where it is settled. There is a byte for each of them.
#[derive(Clone, Copy)]
pub struct Settings<'a> {
    pub settled: &'a [u8],
    pub inputs: usize,
    ghost few: { inputs ≤ max_inputs },
    ghost room: { 2 ^ inputs ≤ length settled.now },
}
