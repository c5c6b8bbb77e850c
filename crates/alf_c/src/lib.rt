// The C interface (include/alf.h): each operation under its C name, with its arguments one by one, as C lends them. Numbers pass as
// themselves, a slice as a pointer and a length; what is returned is the number of 01's table and of 02's cards, 0 where the input is
// accepted.
#![tactic(auto)]

mod bank_read;
mod bank_write;
mod chroma;
mod classes;
mod clip_causes;
mod cross_component;
mod isolated;
mod luma;

pub use bank_read::alf_bank_read;
pub use bank_write::alf_bank_write;
pub use chroma::alf_chroma;
pub use classes::alf_classes;
pub use clip_causes::alf_clip_causes;
pub use cross_component::alf_cross_component;
pub use isolated::alf_isolated;
pub use luma::alf_luma;
