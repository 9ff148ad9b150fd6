// The emission of the unrolled block: writing the rendering's words, when nothing can refuse any more. Render calls it,
// and Gather uses its copying of single entries.
#![tactic(auto)]

pub mod entry;
pub mod rendered;
