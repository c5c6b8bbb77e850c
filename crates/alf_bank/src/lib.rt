// Filter banks as files (02, card 2): one bank at one depth has one file. The definitions are in specs/ (Filters, Writing, Reading), what
// is proved of them alone in proofs/BankFiles.antt; the reader and the writer have a crate each, and share what is here.
#![tactic(auto)]

pub mod filters;

// A filter of a bank, as a field names it: the field's tag, and the leading numbers of its value. The component is 0 but for tag 4.
#[derive(Clone, Copy)]
pub struct FilterId {
    // stays a number: it is a byte of the file, and what a field of another tag would be is asked before the tag is refused
    pub tag: u8,
    pub aps: u8,
    // stays a number: it is a byte of the file, and is asked of a field before it is refused (id_valid)
    pub component: u8,
    pub filter: u8,
}

// How many leading numbers, coefficients and clips a filter's value has.
#[derive(Clone, Copy)]
pub struct FilterShape {
    pub leads: usize,
    pub coeffs: usize,
    pub clips: usize,
}
