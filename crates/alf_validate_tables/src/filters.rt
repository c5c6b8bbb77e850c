// Cause 11: coefficients, clips and the fixed map.
ghost use Rattle.std.specs.Prelude.{◌≡◌, true, ◌&&◌, ◌≤◌, ◌<◌, pos, length, get_or};
ghost use Rattle.alf_spec.specs.Lists.{implies, all_below, every_from};
ghost use Rattle.alf_spec.specs.Input.{given};
ghost use Rattle.alf_spec.specs.Filters.{operation_of};
ghost use Rattle.alf_spec.specs.Faults.{bit_depth_valid, is_clip, clip_valid, bank_number_valid, bank_valid, fixed_valid};

use crate::entries::{coeff_valid, coefficients_valid};
use alf_spec::{Filter, FilterInput};
use alf_validate_layout::entries::bytes_below;

// How many numbers a bank has: eight APSs of 752.
const BANK: usize = 8 * 752;

// Whether number n of an APS is a clip.
#[tactic(auto, unfolding(alf_spec::specs::Faults::is_clip))]
fn is_clip(n: usize) -> bool
    ensures { result ≡ is_clip n }
{
    if n < 600 {
        12 <= n % 24
    } else {
        (n < 696) & (6 <= (n - 600) % 12)
    }
}

// Whether a clip is from 0 to 1 << BitDepth.
#[tactic(auto, unfolding(alf_spec::specs::Faults::clip_valid))]
fn clip_valid(bit_depth: u8, clip: i16) -> bool
    requires { bit_depth ≤ 12 }
    ensures { result ≡ clip_valid bit_depth clip }
{
    (0 <= clip) & (clip <= (1u16 << bit_depth) as i16)
}

// Whether number k of the bank is in its range.
#[tactic(auto, unfolding(alf_spec::specs::Faults::bank_number_valid))]
fn bank_number_valid(bit_depth: u8, k: usize, number: i16) -> bool
    requires { bit_depth ≤ 12 }
    ensures { result ≡ bank_number_valid bit_depth k number }
{
    if is_clip(k % 752) {
        clip_valid(bit_depth, number)
    } else {
        coeff_valid(number)
    }
}

// Number k of the bank.
fn number_at(bank: &[i16], k: usize) -> i16
    requires { k < length bank.now }
    ensures { result ≡ get_or bank.now k (pos 0) }
{
    bank[k]
}

// Whether each of the first `count` numbers is in its range. A count of 16 bits holds a whole bank, and shows that a place has 16 bits: so
// the remainder in it is found for eight places at once, in every build.
fn first_valid(bit_depth: u8, bank: &[i16], count: u16) -> bool
    requires { (bit_depth ≤ 12) × (count ≤ length bank.now) }
    ensures { result ≡ all_below count (λ k. bank_number_valid bit_depth k (get_or bank.now k (pos 0))) }
{
    let mut good = true;
    for k in 0..count {
        let place = k as usize;
        good = good & bank_number_valid(bit_depth, place, number_at(bank, place));
    }
    good
}

// Whether each number is, where so many at the front have been tested. A bank has none behind these; a longer list has.
fn rest_valid(bit_depth: u8, bank: &[i16], tested: usize, first: bool) -> bool
    requires { (bit_depth ≤ 12) × (tested ≤ length bank.now)
        × (first ≡ all_below tested (λ k. bank_number_valid bit_depth k (get_or bank.now k (pos 0)))) }
    ensures { result ≡ all_below (length bank.now) (λ k. bank_number_valid bit_depth k (get_or bank.now k (pos 0))) }
{
    let mut good = first;
    for k in tested..bank.len() {
        good = good & bank_number_valid(bit_depth, k, number_at(bank, k));
    }
    good
}

// Whether each number of the whole bank is in its range, which its place decides too.
pub fn bank_valid(bit_depth: u8, bank: &[i16]) -> bool
    requires { bit_depth ≤ 12 }
    ensures { result ≡ every_from 0 (bank_number_valid bit_depth) bank.now }
{
    let count = bank.len().min(BANK);
    let first = first_valid(bit_depth, bank, count as u16);
    rest_valid(bit_depth, bank, count, first)
}

// Whether the fixed coefficients and the fixed map are in their ranges.
#[tactic(auto, unfolding(alf_spec::specs::Faults::fixed_valid))]
fn fixed_valid(input: &FilterInput) -> bool
    ensures { result ≡ fixed_valid input.now }
{
    coefficients_valid(input.fixed_filters) & bytes_below(input.fixed_map, 64)
}

// Whether what a filter is given of filters is valid: the bank, and for luma the fixed tables. A match on `Filter`, here and for the planes:
// what is judged differs, not how.
#[tactic(auto, unfolding(alf_spec::specs::Faults::bit_depth_valid, alf_spec::specs::Faults::bank_valid))]
pub fn filters_valid(filter: Filter, input: &FilterInput) -> bool
    requires { bit_depth_valid input.now.layout.picture ≡ true }
    ensures { result ≡ (bank_valid input.now && implies (given (operation_of filter)).fixed (fixed_valid input.now)) }
{
    let bank_valid = bank_valid(input.layout.picture.bit_depth, input.bank);
    match filter {
        Filter::Luma => bank_valid & fixed_valid(input),
        Filter::Chroma(_) | Filter::CrossComponent(_) => bank_valid,
    }
}
