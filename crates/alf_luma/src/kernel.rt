// A row of filtered samples, from the copy of a piece:
//   (1467)  sum = Σ f[ idx[ j ] ] * ( Clip3( −c, c, plus_j − curr ) + Clip3( −c, c, minus_j − curr ) ),  c = c[ idx[ j ] ],  j = 0..11
//   (1468), (1469)  Clip3( 0, ( 1 << BitDepth ) − 1, curr + ( ( sum + 64 ) >> alfShiftY ) )
// where plus_j and minus_j lie opposite each other: one tap y3 below and above, three y2, five y1, and three in the sample's own row.
// One loop over the columns, with all twelve taps in its body and loads and stores of 16 bits only: so the compiler makes vectors of eight
// columns.
ghost use Rattle.std.specs.Prelude.{◌≡◌, ◌+◌, ◌-◌, ◌≤◌, ◌<◌, length};
ghost use Rattle.alf_spec.specs.Lists.{painted};
ghost use Rattle.alf_spec.specs.Arithmetic.{tap_sum};
ghost use Rattle.alf_lists.specs.Regions.{between};
ghost use Rattle.alf_taps.specs.Spread.{spread_coeff, spread_clip};
ghost use Rattle.alf_luma.specs.Kernel.{plus_samples, minus_samples, filtered_at, row_from, RowReads};

use alf_math::rounding::filtered;
use alf_taps::{TapSource, add_tap};

// Where the rows of the copy begin that the taps of a row of samples read: its own, and three above and below it.
#[derive(Clone, Copy)]
pub struct Starts {
    pub above3: usize,
    pub above2: usize,
    pub above1: usize,
    pub here: usize,
    pub below1: usize,
    pub below2: usize,
    pub below3: usize,
}

// (1467): the twelve taps of the sample `curr` at column x, which stands at column x + 3 of the copy, since the margin has three columns.
fn luma_sum(source: &TapSource<Starts>, curr: u16, x: usize) -> i32
    requires { (RowReads source.now.copy.now source.now.starts (x + 1)) × (curr < 4096) × (x < 128) }
    ensures { result ≡ tap_sum 12 curr (spread_coeff source.now.taps.now x) (spread_clip source.now.taps.now x)
        (plus_samples source.now.copy.now source.now.starts x) (minus_samples source.now.copy.now source.now.starts x) }
{
    let copy = source.copy;
    let s = source.starts;
    let taps = source.taps;
    let s0 = add_tap(0, copy, curr, x, s.below3, 3, s.above3, 3, taps, 0);
    let s1 = add_tap(s0, copy, curr, x, s.below2, 4, s.above2, 2, taps, 128);
    let s2 = add_tap(s1, copy, curr, x, s.below2, 3, s.above2, 3, taps, 256);
    let s3 = add_tap(s2, copy, curr, x, s.below2, 2, s.above2, 4, taps, 384);
    let s4 = add_tap(s3, copy, curr, x, s.below1, 5, s.above1, 1, taps, 512);
    let s5 = add_tap(s4, copy, curr, x, s.below1, 4, s.above1, 2, taps, 640);
    let s6 = add_tap(s5, copy, curr, x, s.below1, 3, s.above1, 3, taps, 768);
    let s7 = add_tap(s6, copy, curr, x, s.below1, 2, s.above1, 4, taps, 896);
    let s8 = add_tap(s7, copy, curr, x, s.below1, 1, s.above1, 5, taps, 1024);
    let s9 = add_tap(s8, copy, curr, x, s.here, 6, s.here, 0, taps, 1152);
    let s10 = add_tap(s9, copy, curr, x, s.here, 5, s.here, 1, taps, 1280);
    add_tap(s10, copy, curr, x, s.here, 4, s.here, 2, taps, 1408)
}

// (1466), (1468), (1469): the filtered sample at column x.
fn luma_at(source: &TapSource<Starts>, x: usize) -> u16
    requires { (RowReads source.now.copy.now source.now.starts (x + 1)) × (x < 128) }
    ensures { result ≡ filtered_at source.now.depth source.now.shift source.now.copy.now source.now.taps.now source.now.starts x }
{
    let here = source.starts.here;
    let curr = source.copy[here + x + 3];
    filtered(curr, luma_sum(source, curr, x), source.shift, source.depth)
}

// A row of n filtered samples, put into the plane from the index `from` on. Chroma has a loop like it. One loop over a closure is no plainer:
// each use has to show how long what it borrows lives.
pub(crate) fn luma_row(source: &TapSource<Starts>, n: usize, output: &mut [u16], from: usize)
    requires { (RowReads source.now.copy.now source.now.starts n) × (n ≤ 128) × (from + n ≤ length output.old) }
    ensures { output.new ≡ painted output.old (between from n)
        (row_from source.now.depth source.now.shift source.now.copy.now source.now.taps.now source.now.starts from) }
{
    for x in 0..n {
        output[from + x] = luma_at(source, x);
    }
}
