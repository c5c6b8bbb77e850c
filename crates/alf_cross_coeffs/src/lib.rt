// Cross-component coefficients that H.266 can send, and the filters of a bank that have another (02, card 6).
#![tactic(auto)]

mod coefficients;
mod offenders;

pub use offenders::{cross_filters_valid, next_offender};

// A cross-component filter of a bank; a component is 0 (Cb) or 1 (Cr), and stays a number: 02 has it printed as one.
#[derive(Clone, Copy)]
pub struct CrossFilter {
    pub aps: u8,
    pub component: u8,
    pub filter: u8,
}

// A cross-component filter with a coefficient that H.266 can't send, and the place behind it, from which a search goes on.
#[derive(Clone, Copy)]
pub struct Offender {
    pub filter: CrossFilter,
    pub next: usize,
}
