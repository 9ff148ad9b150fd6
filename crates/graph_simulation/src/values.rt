// The array of values, a byte for what stands at each place of crates/graph_gates: made from a setting's bytes, and the
// gates' bytes taken out of it. That nothing in it has a value yet is asked of the array that is lent to be written: a
// type that says so would have to become another one with the first value.
ghost use Rattle.std.specs.Prelude.{◌≡◌, [], map, ◌+◌, ◌≤◌, length, get_or};
ghost use Rattle.prelude.specs.Lists.{tab, placed};
ghost use Rattle.netlist.specs.Limits.{max_gates};
ghost use Rattle.netlist.specs.Values.{value_of};
ghost use Rattle.graph_gates.specs.Places.{first_gate};
ghost use Rattle.graph_simulation.specs.Rounded.{Blank, Starting, Bytes};

use graph_gates::{FIRST_GATE, FIRST_INPUT, PLACES};

// Writes the constants into an array where nothing has a value.
pub fn put_constants(values: &mut [u8; PLACES])
    requires { Blank values.old }
    ensures { Starting [] values.new }
{
    values[0] = 0;
    values[1] = 1;
}

// Writes the constants and the inputs' values into an array where nothing has a value.
pub fn put_setting(setting: &[u8], values: &mut [u8; PLACES])
    requires { Blank values.old × Bytes setting.now }
    ensures { Starting (map value_of setting.now) values.new }
{
    put_constants(values);
    values[FIRST_INPUT..FIRST_INPUT + setting.len()].copy_from_slice(setting);
}

// Copies the bytes of m gates into the first bytes of `out`.
pub fn take_gates(values: &[u8; PLACES], m: usize, out: &mut [u8])
    requires { (m ≤ max_gates) × (m ≤ length out.old) }
    ensures { out.new ≡ placed (tab (λ j. get_or values.now (first_gate + j) 0) m) out.old }
{
    out[..m].copy_from_slice(&values[FIRST_GATE..FIRST_GATE + m]);
}
