// How many passes one strongly connected group needs under the settings of one batch (SPECIFICATION 6.1): its settled
// values are put aside, and passes made from undefined until each gate has its settled value again (`group`).

// One group for the settings of one batch: its gates are `members[from..end]`, and the batch starts at setting number
// `base`.
#[derive(Clone, Copy)]
pub struct Turn {
    pub from: usize,
    pub end: usize,
    pub base: usize,
}

// The passes of one group, and the copies of all groups so far.
#[derive(Drop)]
pub struct Counted {
    pub passes: usize,
    pub total: usize,
}
