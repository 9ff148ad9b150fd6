// How deep loops are unrolled: Render's one walk over a block's settings, 64 at a time (`walk`), finds how many passes
// over each group its gates need (SPECIFICATION 6.1; one group under one batch: `passes`, `group`, `pairs`), and the
// lowest setting that may come and is not settled. specs/Counting.antt states what is found.
#![tactic(auto)]

mod group;
mod pairs;
mod passes;
pub mod walk;

// The copies of all groups, and the lowest setting that may come and is not settled, or 2^n.
#[derive(Drop)]
pub struct Found {
    pub total: usize,
    pub lowest: usize,
}
