// The sides of all CTBs of a picture, worked out once into a table: what the filters, the class map and the isolation test need to know of
// tiles, slices and subpictures is there, so that none of their tables is handed on to a CTB or a piece of one.
#![tactic(auto)]

mod entries;
mod table;

pub use table::{CTBS, plan_sides, sides_at};
