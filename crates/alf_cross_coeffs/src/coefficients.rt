// Cause 21: whether a cross-component coefficient is 0 or plus or minus a power of two up to 64.
ghost use Rattle.std.specs.Prelude.{◌≡◌};
ghost use Rattle.alf_spec.specs.Faults.{cross_coeff_valid};

// Whether H.266 can send a cross-component coefficient: its magnitude has one bit set at most, and is 64 at most.
#[tactic(auto, using(crate::proofs::Powers::one_bit_lem))]
pub fn cross_coeff_valid(coefficient: i16) -> bool
    ensures { result ≡ cross_coeff_valid coefficient }
{
    let n = coefficient.unsigned_abs();
    (n.count_ones() <= 1) & (n <= 64)
}
