// The layout of a stored block, for every crate that has words: the limits, the offsets of its parts, the words of
// constants, the table of kinds, masks of inputs and of values, and words of a slice read and filled (SPECIFICATION
// 1.5, 2, 3.2 and 4.1).
#![tactic(auto)]

pub mod block;
pub mod bytes;
pub mod fill;
pub mod kinds;
pub mod limits;
pub mod masks;
pub mod names;
pub mod nodes;
pub mod offsets;
pub mod read;
pub mod trim;
pub mod value_masks;
