// The cross-component filters of a bank, in the order of a bank file: 64 of them, eight an APS, Cb's before Cr's.
ghost use Rattle.std.specs.Prelude.{◌≡◌, ◌<◌, pos, get_or};
ghost use Rattle.alf_spec.specs.Faults.{cross_filters_valid};
ghost use Rattle.alf_cross_coeffs.specs.Offenders.{cross_filter_at, valid_at, next_offender, found_at, offender_at};

use crate::coefficients::cross_coeff_valid;
use crate::{CrossFilter, Offender};

// Number k of a bank. What a shorter bank lacks counts as 0, like a filter that a bank file leaves out.
fn number_at(bank: &[i16], k: usize) -> i16
    ensures { result ≡ get_or bank.now k (pos 0) }
{
    bank.get(k).copied().unwrap_or(0)
}

// Whether H.266 can send each coefficient of the filter at place n.
fn valid_at(bank: &[i16], n: usize) -> bool
    requires { n < 64 }
    ensures { result ≡ valid_at bank.now n }
{
    let start = 752 * (n / 8) + (696 + 7 * (n % 8));
    (0..7).all(|j| cross_coeff_valid(number_at(bank, start + j)))
}

// The first place from `from` on whose filter has another coefficient.
fn first_offender(bank: &[i16], from: usize) -> Option<usize>
    ensures { result ≡ found_at (next_offender bank.now from) }
{
    (from..64).find(|n| !valid_at(bank, *n))
}

// Cause 21: whether H.266 can send every coefficient of every cross-component filter of a bank.
pub fn cross_filters_valid(bank: &[i16]) -> bool
    ensures { result ≡ cross_filters_valid bank.now }
{
    first_offender(bank, 0).is_none()
}

// The filter at place n.
fn cross_filter_at(n: usize) -> CrossFilter
    requires { n < 64 }
    ensures { result ≡ cross_filter_at n }
{
    CrossFilter {
        aps: (n / 8) as u8,
        component: (n % 8 / 4) as u8,
        filter: (n % 4) as u8,
    }
}

// The next filter, from place `from` on, that has a coefficient which H.266 can't send. To go through all of them, begin at 0 and go on
// from the place that comes with each.
#[tactic(auto, unfolding(crate::specs::Offenders::offender_at))]
pub fn next_offender(bank: &[i16], from: usize) -> Option<Offender>
    ensures { result ≡ offender_at (next_offender bank.now from) }
{
    let n = first_offender(bank, from)?;
    Some(Offender {
        filter: cross_filter_at(n),
        next: n + 1,
    })
}
