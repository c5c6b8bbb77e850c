// Clipping to two ends and to a sample's levels, the latter in 32 bits and in 16: a vector of 128 bits holds eight numbers of 16.
ghost use Rattle.std.specs.Prelude.{◌≡◌, ◌-◌, ◌^◌, ◌≤◌, ◌<◌};
ghost use Rattle.alf_spec.specs.Arithmetic.{clip3, clip_sample};

// Clip3( low, high, v ), 16 bits wide, of any two ends. Not `clamp` of std, which asks that the low end is not above the high one.
#[tactic(auto, unfolding(alf_spec::specs::Arithmetic::clip3))]
pub fn clip16(low: i16, high: i16, v: i16) -> i16
    ensures { result ≡ clip3 low high v }
{
    if v < low {
        low
    } else if high < v {
        high
    } else {
        v
    }
}

// The largest level of a sample.
#[tactic(auto, using(crate::proofs::Grids::power_bounds))]
pub fn top_level(depth: u32) -> u32
    requires { depth ≤ 12 }
    ensures { (result ≡ 2 ^ depth - 1) × (result < 4096) }
{
    (1 << depth) - 1
}

// Half the levels of a sample: a cross-component correction is clipped to it.
pub fn half_levels(depth: u32) -> u32
    requires { (1 ≤ depth) × (depth ≤ 12) }
    ensures { (result ≡ 2 ^ (depth - 1)) × (1 ≤ result) × (result ≤ 2048) }
{
    1 << (depth - 1)
}

// Clip3( 0, ( 1 << BitDepth ) − 1, v )
pub fn clip_sample(v: i32, depth: u32) -> u16
    requires { depth ≤ 12 }
    ensures { result ≡ clip_sample depth v }
{
    v.clamp(0, top_level(depth) as i32) as u16
}

// Clip3( 0, ( 1 << BitDepth ) − 1, v ) of a number of 16 bits. Beside `clip_sample`, since a cast has no generic form, and a kernel that
// widened the number first would have half as many to a vector.
pub fn level16(v: i16, depth: u32) -> u16
    requires { depth ≤ 12 }
    ensures { result ≡ clip_sample depth v }
{
    v.clamp(0, top_level(depth) as i16) as u16
}
