// What the tables say of one CTB: whether each filter is on, and the numbers of its filter.
#![tactic(auto)]

mod entries;
mod filters;
mod switches;

pub use filters::{
    ApsRun, FIXED_SETS, chroma_run, cross_run, load_fixed, load_from_aps, luma_run, luma_set,
};
pub use switches::{chroma_on, cross_on, luma_on};
