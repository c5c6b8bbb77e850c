// Causes 1 to 9 of paper 01's table: those of the picture and its boundary tables, which every operation judges. A function for each, and
// the lowest of them; and the test of every entry of a table and the step of a judge, which later causes share. A function that reads a
// part of the layout says its answer of every layout with that part.
#![tactic(auto)]

mod corners;
pub mod entries;
pub mod layout;
mod lengths;
mod maps;
pub mod picture;
pub mod require;
mod tiles;
mod virtual_boundaries;
