// What the chroma samples of a piece are corrected from.
ghost use Rattle.std.specs.Prelude.{ℕ, ◌≤◌, ◌<◌, get_or};
ghost use Rattle.alf_cross.specs.Taps.{SmallTaps};

// A piece's split copy, the chroma plane, the seven coefficients and the bit depth.
#[derive(Clone, Copy)]
pub struct CrossSource<'a> {
    pub split: &'a [u16],
    pub chroma: &'a [u16],
    pub coeffs: [i16; 7],
    pub depth: u32,
    pub ghost samples: { (k : ℕ) → get_or chroma.now k 0 < 4096 },
    pub ghost small: { SmallTaps coeffs },
    pub ghost depth_low: { 1 ≤ depth },
    pub ghost depth_high: { depth ≤ 12 },
}
