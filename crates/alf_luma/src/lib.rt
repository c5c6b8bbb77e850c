// The luma filter of a piece of a CTB: its classes, the filters of its blocks spread over the columns, and its samples, row by row.
#![tactic(auto)]

mod kernel;
mod piece;
mod rows;
mod spread;

pub use piece::filter_piece;
pub use spread::{ORDERS, tap_orders};
