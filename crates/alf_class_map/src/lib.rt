// The class map of a picture: a CTB at a time, a piece of its rows at a time, a piece of its columns at a time.
#![tactic(auto)]

mod ctbs;
mod map;

pub use map::class_map;
