// The rounding shift of a sum of taps, and the sample that it moves.
ghost use Rattle.std.specs.Prelude.{◌≡◌, ◌^◌, ◌≤◌, ◌<◌, nat_abs};
ghost use Rattle.alf_spec.specs.Arithmetic.{rounded as rounded_by, filtered as filtered_by};

use crate::clipping::clip_sample;

// ( sum + 64 ) >> shift, rounded toward minus infinity
#[tactic(auto, using(crate::proofs::Magnitude::abs_add), unfolding(alf_spec::specs::Arithmetic::rounded))]
pub fn rounded(sum: i32, shift: u32) -> i32
    requires { (nat_abs sum ≤ 2 ^ 30) × (shift < 32) }
    ensures { result ≡ rounded_by shift sum }
{
    (sum + 64) >> shift
}

// (1468), (1469), and (1509), (1510): the current sample, moved by a sum of taps.
pub fn filtered(curr: u16, sum: i32, shift: u32, depth: u32) -> u16
    requires { (curr < 4096) × (nat_abs sum ≤ 2 ^ 30) × (shift < 32) × (depth ≤ 12) }
    ensures { result ≡ filtered_by depth shift curr sum }
{
    clip_sample(curr as i32 + rounded(sum, shift), depth)
}
