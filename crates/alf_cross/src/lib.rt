// The cross-component filter of a piece of a CTB: the piece of luma is copied with its margin, the copy's columns are split,
// and each chroma sample whose luma position lies in the piece is corrected by seven taps.
#![tactic(auto)]

mod kernel;
mod piece;
mod rows;
mod source;
mod split;

pub use piece::filter_piece;
