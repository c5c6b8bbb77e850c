// The pieces of a CTB, from whose samples all reads are clamped to one range, and the copy of a piece with its margin. A filter that runs
// over the copy clamps nothing.
#![tactic(auto)]

pub mod copies;
pub mod luma_pieces;
pub mod pieces;
pub mod walks;
