// What decides the class and the transpose of a block, once the sums over its window are known. No number here is wider than 32 bits, and
// the one multiplication is of 16 bits by 16 (02, card 3); `scripts/class-widths.sh` reads the code for that.
#![tactic(auto, using(crate::proofs::Gradients::shift_kept), unfolding(alf_spec::specs::Classes::larger, alf_spec::specs::Classes::diagonal, alf_spec::specs::Classes::strength, alf_spec::specs::Classes::activity, alf_spec::specs::Classes::transpose_idx, alf_spec::specs::Classes::filt_idx))]

pub mod direction;
pub mod products;
mod tables;
