// A tap: a coefficient at two neighbours that lie opposite each other. Differences and clips are 16 bits wide, so that a vector of 128 bits
// holds eight of them; the product is 32 bits.
ghost use Rattle.std.specs.Prelude.{◌≡◌, ◌<◌};
ghost use Rattle.alf_spec.specs.Arithmetic.{clipped_change, tap as tap_of};
ghost use Rattle.alf_math.specs.Integers.{CoeffRange, ClipRange};

// How far a sample is from the current one, clipped to −c .. c: a minimum and a maximum, each one instruction of a vector.
fn clipped_change(curr: u16, c: i16, sample: u16) -> i16
    requires { (curr < 4096) × (ClipRange c) × (sample < 4096) }
    ensures { result ≡ clipped_change curr c sample }
{
    (sample as i16 - curr as i16).min(c).max(-c)
}

pub fn tap(curr: u16, f: i16, c: i16, plus: u16, minus: u16) -> i32
    requires { (curr < 4096) × (CoeffRange f) × (ClipRange c) × (plus < 4096) × (minus < 4096) }
    ensures { result ≡ tap_of curr f c plus minus }
{
    f as i32 * (clipped_change(curr, c, plus) + clipped_change(curr, c, minus)) as i32
}
