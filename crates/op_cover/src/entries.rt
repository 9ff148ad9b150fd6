// The entries of the cover, the prime implicants: the pairs of masks whose assignments are left in the table, in
// ascending order.
ghost use Rattle.std.specs.Prelude.{◌≡◌, ◌+◌, ◌*◌, ◌^◌, ◌≤◌, ◌<◌, length};
ghost use Rattle.prelude.specs.Lists.{placed};
ghost use Rattle.theory_cover.specs.Entries.{PairBelow, EntriesWritten};
ghost use Rattle.theory_cover.specs.Over.{assignment_words};
ghost use Rattle.theory_cover.specs.Tables.{weight_of, Weighed};

use crate::pairs::next_ones;

// A first mask, and the number of the assignment with it and no input at 1.
#[derive(Clone, Copy)]
struct FirstMask {
    fixed: usize,
    base: usize,
}

// A byte for each assignment of so many inputs, 1 for those that are left in the table; and the weights of the masks,
// by which an assignment's number is found.
#[derive(Clone, Copy)]
pub struct Primes<'a> {
    pub marks: &'a [u8],
    pub weights: &'a [u32],
    pub inputs: usize,
    ghost weighed: { Weighed weights.now inputs },
    ghost sized: { length marks.now ≡ 3 ^ inputs },
}

impl<'a> Primes<'a> {
    ghost use Rattle.op_cover.specs.Primes.{entries_of, is_entry_of, pair_of, HasRow, Reaches, ListsRow};

    // The number of the assignment with this first mask and no input at 1.
    fn row_base(&self, fixed: usize) -> usize
        requires { fixed < 2 ^ self.now.inputs }
        ensures { result + 2 * weight_of self.now.inputs fixed + 1 ≡ 3 ^ self.now.inputs }
    {
        self.marks.len() - 1 - 2 * self.weights[fixed] as usize
    }

    // Whether an assignment with this first mask is left: an input at 1 in place of 0 makes the number greater by its
    // weight.
    fn is_left(&self, first: FirstMask, ones: usize) -> bool
        requires { HasRow self.now first.base first.fixed × (ones < 2 ^ self.now.inputs)
            × PairBelow self.now.inputs (pair_of self.now first.fixed ones) }
        ensures { result ≡ is_entry_of self.now (pair_of self.now first.fixed ones) }
    {
        self.marks[first.base + self.weights[ones] as usize] == 1
    }

    // The words of the entries with this first mask, behind those of the entries before it; how many entries these are
    // together.
    fn list_row(&self, first: FirstMask, before: usize, out: &mut [u16]) -> usize
        requires row { HasRow self.now first.base first.fixed
            × Reaches self.now (first.fixed * 2 ^ self.now.inputs) before }
        requires n_in_bounds { 2 * length (entries_of self.now) ≤ length out.old }
        ensures { ListsRow self.now out.old out.new first.fixed result }
    {
        let fixed = first.fixed;
        let end = 1usize << self.inputs;
        let mut count = before;
        let mut ones = 0;
        // The subsets of a mask are no range of numbers.
        while ones < end {
            if self.is_left(first, ones) {
                out[2 * count] = fixed as u16;
                out[2 * count + 1] = ones as u16;
                count += 1;
            }
            ones = next_ones(self.inputs, fixed, ones);
        }
        count
    }

    // The words of all `total` entries into the beginning of `out`; the walk ends with the last of them.
    fn list_entries(&self, total: usize, out: &mut [u16])
        requires { (total ≡ length (entries_of self.now)) × (2 * length (entries_of self.now) ≤ length out.old) }
        ensures { out.new ≡ placed (assignment_words (entries_of self.now)) out.old }
    {
        // The walk ends with the last entry, mostly long before the last mask, so that it is no range of masks.
        let mut count: usize = 0;
        let mut fixed = 0;
        while count < total {
            let base = self.row_base(fixed);
            let first = FirstMask { fixed, base };
            count = self.list_row(first, count, out);
            fixed += 1;
        }
    }

    // The words of the entries, where `out` has room for all of them; how many these are is known.
    pub fn write_entries(&self, total: usize, out: &mut [u16])
        requires { total ≡ length (entries_of self.now) }
        ensures { EntriesWritten (entries_of self.now) out.old out.new total }
    {
        if 2 * total <= out.len() {
            self.list_entries(total, out);
        }
    }
}
