// Up to 64 settings decided at once, by a plan of the block's gates that is made once.
#![tactic(auto)]

pub mod layered;
pub mod plan;
