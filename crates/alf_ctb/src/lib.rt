// A CTB, filtered: which filter, the numbers it has in the CTB, and its samples piece by piece. One driver for the three filters, since
// they differ only in where a CTB's numbers stand and in what they do with a piece.
#![tactic(auto)]

mod ctbs;
mod inputs;
mod pieces;
mod tables;

pub use ctbs::{filter_ctb, walk_line};
pub use inputs::Planes;
pub use tables::{is_on, load};
