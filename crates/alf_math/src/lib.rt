// Leaves on integers: the order of taps, clipping and rounding, taps, class windows, and the CTB grid. Each equals its definition of
// `alf_spec`.
#![tactic(auto)]

pub mod clipping;
pub mod grid;
pub mod rounding;
pub mod tables;
pub mod taps;
pub mod windows;
