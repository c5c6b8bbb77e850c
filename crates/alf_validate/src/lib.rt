// Judging an input: the lowest fault, by paper 01's table, of each operation's input. No judge asks anything of its caller.
#![tactic(auto)]

mod causes;
mod isolation;
mod judges;

pub use causes::judge_causes;
pub use isolation::judge_isolation;
pub use judges::{judge_classes, judge_filter};
