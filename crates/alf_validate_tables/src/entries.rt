// Tests of every sample or coefficient.
ghost use Rattle.std.specs.Prelude.{◌≡◌, ltb};
ghost use Rattle.alf_spec.specs.Lists.{every};
ghost use Rattle.alf_spec.specs.Faults.{coeff_valid};

use alf_validate_layout::entries::every;

// Whether each sample of a plane is below the limit, compared at its own width.
pub fn samples_below(list: &[u16], limit: u16) -> bool
    ensures { result ≡ every (λ n. ltb n limit) list.now }
{
    every(list, |n| *n < limit)
}

// Whether a coefficient is from -128 to 127.
#[tactic(auto, unfolding(alf_spec::specs::Faults::coeff_valid))]
pub fn coeff_valid(coefficient: i16) -> bool
    ensures { result ≡ coeff_valid coefficient }
{
    (-128 <= coefficient) & (coefficient <= 127)
}

// Whether each coefficient of a table is.
pub fn coefficients_valid(list: &[i16]) -> bool
    ensures { result ≡ every coeff_valid list.now }
{
    every(list, |n| coeff_valid(*n))
}
