// The two masks of values that stand in a row: which are defined, and which are 1 (SPECIFICATION 4.1).
ghost use Rattle.std.specs.Prelude.{◌≡◌, cond, map, ◌≤◌, length};
ghost use Rattle.netlist.specs.Values.{value_of, is_defined};
ghost use Rattle.netlist.specs.Assignments.{is_one};
ghost use Rattle.words_layout.specs.Masks.{mask_bits, masks_of};

// Two masks of values: bit i of each is of value i.
#[derive(Drop)]
pub struct Masks {
    pub defined: u16,
    pub ones: u16,
}

// The bit of a value in the mask of those that are defined.
pub fn defined_bit(v: u8) -> u16
    ensures { result ≡ cond (is_defined (value_of v)) 1 0 }
{
    match v {
        0 => 1,
        1 => 1,
        _ => 0,
    }
}

// The bit of a value in the mask of those at 1.
pub fn one_bit(v: u8) -> u16
    ensures { result ≡ cond (is_one (value_of v)) 1 0 }
{
    match v {
        1 => 1,
        _ => 0,
    }
}

// The masks of at most 16 values, made from the last value to the first.
pub fn masks_of(values: &[u8]) -> Masks
    requires { length values.now ≤ mask_bits }
    ensures { result ≡ masks_of (map value_of values.now) }
{
    let mut defined: u16 = 0;
    let mut ones: u16 = 0;
    for i in (0..values.len()).rev() {
        let v = values[i];
        defined = 2 * defined + defined_bit(v);
        ones = 2 * ones + one_bit(v);
    }
    Masks { defined, ones }
}
