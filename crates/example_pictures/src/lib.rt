// What the example programs run the operations on: small pictures, their layouts, filters and parameters.
#![tactic(auto)]

pub mod drawing;
mod filling;
pub mod layout;
pub mod tables;
pub mod textures;
