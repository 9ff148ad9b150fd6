// Settle (SPECIFICATION 7.5), and the test of a setting's bytes.
#![tactic(auto)]

pub mod setting;
pub mod settle;
