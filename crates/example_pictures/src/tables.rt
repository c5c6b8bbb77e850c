// The filters and the parameters that the picture is filtered with.
use crate::filling::fill_by;

const COEFFICIENTS: [i16; 7] = [9, -4, 6, 0, 12, -7, 3];

// Some hold back even the grain, and 256 none of 8 bits.
const CLIPS: [i16; 5] = [256, 3, 10, 40, 0];

// A small coefficient, by its index in a table.
fn coefficient(k: usize) -> i16 {
    COEFFICIENTS[k % 7]
}

// A clip, by its index in the bank.
fn clip(k: usize) -> i16 {
    CLIPS[k % 5]
}

// An APS has 752 numbers: 25 luma filters of 12 coefficients and 12 clips, 8 chroma alternatives of 6 and 6, 8 cross-component filters of
// 7.
fn is_clip(n: usize) -> bool {
    if n < 600 {
        n % 24 >= 12
    } else {
        n < 696 && n % 12 >= 6
    }
}

fn bank_entry(k: usize) -> i16 {
    if is_clip(k % 752) {
        clip(k)
    } else {
        coefficient(k)
    }
}

pub fn fill_bank(bank: &mut [i16]) {
    fill_by(bank, bank_entry);
}

pub fn fill_fixed_filters(filters: &mut [i16]) {
    fill_by(filters, coefficient);
}

pub fn fill_fixed_map(map: &mut [u8]) {
    fill_by(map, |k| (k % 64) as u8);
}

// Of each slice: how many luma APSs; seven of them; the chroma one; the cross-component ones of Cb and Cr.
pub const SLICE_PARAMS: [u8; 22] = [
    // one luma APS, 3
    1, 3, 0, 0, 0, 0, 0, 0, 1, 2, 5,
    // two, 6 and 4
    2, 6, 4, 0, 0, 0, 0, 0, 7, 0, 3,
];

// Of each CTB: the flags of luma, Cb and Cr; the luma set; the alternatives of Cb and Cr; their cross-component indices.
pub const CTB_PARAMS: [u8; 32] = [
    // its slice's first APS
    1, 1, 1, 16, 0, 4, 1, 2,
    // not listed
    1, 1, 1, 3, 1, 1, 1, 1,
    // a fixed set; no filter for Cb, no correction for Cr
    1, 0, 1, 5, 2, 7, 3, 0,
    // its slice's second APS
    1, 1, 1, 17, 6, 3, 4, 4,
];

// The first CTB twice, the second not at all.
pub const CTB_LIST: [u32; 4] = [3, 0, 2, 0];
