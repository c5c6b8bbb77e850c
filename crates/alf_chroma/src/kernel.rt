// (1508): sum = Σ f[ j ] * ( Clip3( −c[ j ], c[ j ], plus j − curr ) + Clip3( −c[ j ], c[ j ], minus j − curr ) ), for the taps j = 0..5.
// A row of samples filtered so, over the copy of a piece. One loop runs over the columns of a row with all taps in its body, loads and
// stores 16 bits alone and calls the function of a sample at one place: so vectors hold eight columns.
ghost use Rattle.std.specs.Prelude.{◌≡◌, ◌+◌, ◌≤◌, ◌<◌, length};
ghost use Rattle.alf_spec.specs.Lists.{painted};
ghost use Rattle.alf_spec.specs.Arithmetic.{tap_sum};
ghost use Rattle.alf_lists.specs.Regions.{between};
ghost use Rattle.alf_taps.specs.Spread.{spread_coeff, spread_clip};
ghost use Rattle.alf_chroma.specs.Samples.{ChromaReads, copy_plus, copy_minus, chroma_copy_sample, chroma_copy_sample_from};

use alf_math::rounding::filtered;
use alf_taps::{TapSource, add_tap};

// Where the rows of the copy begin that the taps of a row of samples read: its own, those y1 and y2 above it, and those y1 and y2 below.
#[derive(Clone, Copy)]
pub struct ChromaStarts {
    pub above2: usize,
    pub above1: usize,
    pub here: usize,
    pub below1: usize,
    pub below2: usize,
}

// The six taps of (1508), at column x; the sample's column of the copy is x + 3.
fn chroma_sum(source: &TapSource<ChromaStarts>, curr: u16, x: usize) -> i32
    requires { (ChromaReads source.now.copy.now source.now.starts x) × (curr < 4096) × (x < 128) }
    ensures { result ≡ tap_sum 6 curr (spread_coeff source.now.taps.now x) (spread_clip source.now.taps.now x)
        (copy_plus source.now.copy.now source.now.starts x) (copy_minus source.now.copy.now source.now.starts x) }
{
    let copy = source.copy;
    let s = source.starts;
    let taps = source.taps;
    let s0 = add_tap(0, copy, curr, x, s.below2, 3, s.above2, 3, taps, 0);
    let s1 = add_tap(s0, copy, curr, x, s.below1, 4, s.above1, 2, taps, 128);
    let s2 = add_tap(s1, copy, curr, x, s.below1, 3, s.above1, 3, taps, 256);
    let s3 = add_tap(s2, copy, curr, x, s.below1, 2, s.above1, 4, taps, 384);
    let s4 = add_tap(s3, copy, curr, x, s.here, 5, s.here, 1, taps, 512);
    add_tap(s4, copy, curr, x, s.here, 4, s.here, 2, taps, 640)
}

// The filtered sample at column x.
fn chroma_at(source: &TapSource<ChromaStarts>, x: usize) -> u16
    requires { (ChromaReads source.now.copy.now source.now.starts x) × (x < 128) }
    ensures { result ≡ chroma_copy_sample source.now.copy.now source.now.starts source.now.taps.now source.now.shift source.now.depth x }
{
    let here = source.starts.here;
    let curr = source.copy[here + x + 3];
    filtered(
        curr,
        chroma_sum(source, curr, x),
        source.shift,
        source.depth,
    )
}

// The filtered samples of n columns, put into the plane from the index `from` on, as luma has it (alf_luma's `luma_row` says why apart).
pub(crate) fn chroma_row(
    source: &TapSource<ChromaStarts>,
    n: usize,
    output: &mut [u16],
    from: usize,
)
    requires { (ChromaReads source.now.copy.now source.now.starts n) × (n ≤ 128) × (from + n ≤ length output.old) }
    ensures { output.new ≡ painted output.old (between from n)
        (chroma_copy_sample_from source.now.copy.now source.now.starts source.now.taps.now source.now.shift source.now.depth from) }
{
    for x in 0..n {
        output[from + x] = chroma_at(source, x);
    }
}
