// Up to 64 records of a sheet settled side by side, a lane to a record: their inputs put in lanes (`inputs`), settled
// (`settling`), and what the outputs show at each lane (`outputs`).
ghost use Rattle.std.specs.Prelude.{◌≤◌};

// How many records are settled side by side.
pub const LANES: usize = 64;

// The masks of so many records: those of record s are entry s of `fixed` and of `ones`.
#[derive(Clone, Copy)]
pub struct Masks<'a> {
    pub fixed: &'a [u16; LANES],
    pub ones: &'a [u16; LANES],
    pub count: usize,
    ghost few: { count ≤ 64 },
}
