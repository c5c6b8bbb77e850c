// The isolation test: no open step leads from a block of the region to a block outside of it. It equals the definition of `alf_spec`, which
// speaks of all samples.
#![tactic(auto)]

mod axis;
mod neighbours;
mod regions;
mod steps;

pub use regions::region_isolated;
