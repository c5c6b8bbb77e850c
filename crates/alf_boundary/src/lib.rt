// Where filtering stops: the sides of a CTB and why filtering across them is disabled, and the clip positions of a sample, each with its
// cause. All of them equal their definitions of `alf_spec`.
#![tactic(auto)]

pub mod causes;
pub mod clips;
mod memberships;
mod neighbours;
pub mod sides;
