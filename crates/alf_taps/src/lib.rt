// Taps over the copy of a piece, for luma (1467) and chroma (1508) alike:
//   tap = f * ( Clip3( −c, c, plus − curr ) + Clip3( −c, c, minus − curr ) )
// A filter's numbers are spread over the columns of a row beforehand, so that a
// loop over the columns reads one coefficient and one clip for each tap and sample, and vectors hold eight columns.
#![tactic(auto)]

ghost use Rattle.std.specs.Prelude.{◌≡◌, ◌+◌, ◌*◌, ◌^◌, ◌≤◌, ◌<◌, length, get_or, pos, nat_abs, ◌+ℤ◌};
ghost use Rattle.alf_spec.specs.Arithmetic.{tap as tap_of};
ghost use Rattle.alf_taps.specs.Spread.{clips_at, TapNumbers};

use alf_math::taps::tap;

// Of a filter's spread numbers, how many a row has, how many come before the clips, and how many there are.
pub const COLUMNS: usize = 128;

pub const CLIPS: usize = 1536;

pub const SPREAD: usize = 3072;

// What a row of samples is filtered from: a piece's copy, where the rows of it begin that the taps of the row read, its filter's spread
// numbers, how far a sum of taps is shifted, and the bit depth. Luma and chroma each have their own rows.
#[derive(Drop)]
pub struct TapSource<'a, S> {
    pub copy: &'a [u16],
    pub starts: S,
    pub taps: &'a [i16],
    pub shift: u32,
    pub depth: u32,
    pub ghost numbers: { TapNumbers taps.now },
    pub ghost shift_fits: { shift < 32 },
    pub ghost depth_fits: { depth ≤ 12 },
}

// A sum with one tap more, of the sample at column x: its two neighbours stand in the rows of the copy that begin at `plus` and at `minus`,
// in columns i and j from x on; its coefficient in the row that begins at `at`. The places are numbers of their own: in a call the rows are
// variables and the columns literals, and a struct would only name them once more.
pub fn add_tap(
    sum: i32,
    copy: &[u16],
    curr: u16,
    x: usize,
    plus: usize,
    i: usize,
    minus: usize,
    j: usize,
    taps: &[i16],
    at: usize,
) -> i32
    requires { (nat_abs sum ≤ 11 * 2 ^ 20) × (curr < 4096) × (plus + x + i < length copy.now) × (minus + x + j < length copy.now)
        × (get_or copy.now (plus + x + i) 0 < 4096) × (get_or copy.now (minus + x + j) 0 < 4096) × (at + x < clips_at)
        × (TapNumbers taps.now) }
    ensures { result ≡ sum +ℤ tap_of curr (get_or taps.now (at + x) (pos 0))
        (get_or taps.now (clips_at + (at + x)) (pos 0))
        (get_or copy.now (plus + x + i) 0) (get_or copy.now (minus + x + j) 0) }
{
    sum + tap(
        curr,
        taps[at + x],
        taps[CLIPS + (at + x)],
        copy[plus + x + i],
        copy[minus + x + j],
    )
}
