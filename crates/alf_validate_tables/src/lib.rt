// Causes 10 to 14 of paper 01's table, and what an operation adds to cause 5: the filters' tables, the planes, the CTB list and a region. A
// function for each, and the lowest of 10 to 13. Some ask of their caller what lower causes rule out: a table of another length than the
// sizes call for, or a bit depth above 12. Beside them the test of cause 21, which no operation judges yet.
#![tactic(auto)]

pub mod cross_coeffs;
pub mod entries;
pub mod filter_tables;
pub mod filters;
pub mod operation_lengths;
mod parameters;
pub mod region;
pub mod samples;
