// The three filters, from a CTB to the plane, in three steps: what depends on a CTB alone is planned, the input is copied, and the listed
// CTBs whose flag or index is on are filtered.
#![tactic(auto)]

mod ctbs;
mod listed_ctbs;
mod plane;

pub use plane::filter_plane;
