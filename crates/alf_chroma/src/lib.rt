// The chroma filter of a piece of a CTB, over the piece's copy: 8.8.5.4.
#![tactic(auto)]

pub(crate) mod kernel;
pub mod piece;
pub(crate) mod rows;
