// Cause 21: cross-component coefficients. The cross-component filter alone judges them.
ghost use Rattle.std.specs.Prelude.{◌≡◌};
ghost use Rattle.alf_spec.specs.Lists.{implies};
ghost use Rattle.alf_spec.specs.Filters.{operation_of};
ghost use Rattle.alf_spec.specs.Faults.{cross_filters_valid, judges_cross};

use alf_cross_coeffs::cross_filters_valid;
use alf_spec::Filter;

// Whether a filter judges them.
fn judges_cross(filter: Filter) -> bool
    ensures { result ≡ judges_cross (operation_of filter) }
{
    matches!(filter, Filter::CrossComponent(_))
}

// Whether H.266 can send all that a filter judges of a bank's cross-component coefficients.
pub fn cross_coeffs_valid(filter: Filter, bank: &[i16]) -> bool
    ensures { result ≡ implies (judges_cross (operation_of filter)) (cross_filters_valid bank.now) }
{
    !judges_cross(filter) || cross_filters_valid(bank)
}
