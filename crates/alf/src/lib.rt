// The operations on a picture and on bank files, each from its own crate, and the search for cross-component filters of a bank that H.266
// can't send. None asks anything of its caller: each judges what it is given, then works.
#![tactic(auto)]

mod answer_numbers;

pub use alf_boundary::causes::cause_number;
pub use alf_cross_coeffs::next_offender;
pub use alf_op_bank_read::read_bank;
pub use alf_op_bank_write::write_bank;
pub use alf_op_causes::clip_causes;
pub use alf_op_chroma::chroma;
pub use alf_op_classes::classes;
pub use alf_op_cross::cross_component;
pub use alf_op_isolated::isolated;
pub use alf_op_luma::luma;
pub use answer_numbers::{fault_number, number};
