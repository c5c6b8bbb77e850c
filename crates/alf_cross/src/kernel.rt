// (1533): sum = Σ f[ j ] * ( luma at tap j − luma at the sample's own position ), for the taps j = 0..6.
// A row of samples corrected so. One loop with all taps in its body, 16 bits wherever memory is read or written, and the taps of
// neighbouring samples stand side by side: so LLVM vectorises it.
ghost use Rattle.std.specs.Prelude.{◌≡◌, ◌+◌, ◌*◌, ◌^◌, ◌≤◌, ◌<◌, length, get_or, pos, nat_abs, ◌+ℤ◌, ◌-ℤ◌, ◌*ℤ◌};
ghost use Rattle.alf_spec.specs.Lists.{painted};
ghost use Rattle.alf_spec.specs.CrossComponent.{corrected as corrected_by};
ghost use Rattle.alf_lists.specs.Regions.{between};
ghost use Rattle.alf_cross.specs.Taps.{CrossReads, split_sum, row_sample};

use crate::source::CrossSource;
use alf_math::clipping::{clip16, half_levels, level16};
use alf_math::rounding::rounded;

// (1534) to (1536): the current sample, corrected by a sum of taps. What the shift leaves of the sum fits 16 bits.
fn corrected(curr: u16, sum: i32, depth: u32) -> u16
    requires { (curr < 4096) × (nat_abs sum ≤ 7 * (128 * 4095)) × (1 ≤ depth) × (depth ≤ 12) }
    ensures { result ≡ corrected_by depth curr sum }
{
    let half = half_levels(depth);
    let change = clip16(-(half as i16), (half - 1) as i16, rounded(sum, 7) as i16);
    level16(curr as i16 + change, depth)
}

// Where the taps of a row of samples read the split copy: the row y1 above theirs, their own, and those y1 and y2 below, by where each
// begins; and in each row the columns left of the samples, their own and right of them, by where these begin in it.
#[derive(Clone, Copy)]
pub struct CrossStarts {
    pub above1: usize,
    pub here: usize,
    pub below1: usize,
    pub below2: usize,
    pub left: usize,
    pub own: usize,
    pub right: usize,
}

// A row of n chroma samples, which stand in their plane from index `from` on, and what their taps read.
#[derive(Clone, Copy)]
pub struct CrossRow {
    pub starts: CrossStarts,
    pub from: usize,
    pub n: usize,
}

// A sum with one tap more: coefficient f at the sample at row + at + column of the split copy. The difference of two samples fits 16 bits.
fn cross_tap(
    sum: i32,
    split: &[u16],
    middle: u16,
    row: usize,
    at: usize,
    column: usize,
    f: i16,
) -> i32
    requires { (nat_abs sum ≤ 2 ^ 30) × (middle < 4096) × (row + at + column < length split.now)
        × (get_or split.now (row + at + column) 0 < 4096)
        × (nat_abs f ≤ 128) }
    ensures { result ≡ sum +ℤ f *ℤ (pos (get_or split.now (row + at + column) 0) -ℤ pos middle) }
{
    sum + f as i32 * (split[row + at + column] as i16 - middle as i16) as i32
}

// The seven taps of (1533), for sample `at` of its row.
fn cross_sum(source: &CrossSource, s: CrossStarts, at: usize) -> i32
    requires { CrossReads source.now.split.now s at }
    ensures { (result ≡ split_sum source.now.split.now s source.now.coeffs at) × (nat_abs result ≤ 7 * (128 * 4095)) }
{
    let split = source.split;
    let [f0, f1, f2, f3, f4, f5, f6] = source.coeffs;
    let here = s.here;
    let own = s.own;
    let middle = split[here + at + own];
    let s0 = cross_tap(0, split, middle, s.above1, at, own, f0);
    let s1 = cross_tap(s0, split, middle, here, at, s.left, f1);
    let s2 = cross_tap(s1, split, middle, here, at, s.right, f2);
    let s3 = cross_tap(s2, split, middle, s.below1, at, s.left, f3);
    let s4 = cross_tap(s3, split, middle, s.below1, at, own, f4);
    let s5 = cross_tap(s4, split, middle, s.below1, at, s.right, f5);
    cross_tap(s5, split, middle, s.below2, at, own, f6)
}

// The chroma sample `curr`, which is sample `at` of its row, corrected by its taps.
fn cross_at(source: &CrossSource, s: CrossStarts, at: usize, curr: u16) -> u16
    requires { (CrossReads source.now.split.now s at) × (curr < 4096) }
    ensures { result ≡ corrected_by source.now.depth curr (split_sum source.now.split.now s source.now.coeffs at) }
{
    let sum = cross_sum(source, s, at);
    corrected(curr, sum, source.depth)
}

// The samples of a row of the chroma plane.
pub(crate) fn cross_row(source: &CrossSource, row: CrossRow, output: &mut [u16])
    requires { (CrossReads source.now.split.now row.starts row.n) × (row.from + row.n ≤ length source.now.chroma.now)
        × (row.from + row.n ≤ length output.old) }
    ensures { output.new ≡ painted output.old (between row.from row.n)
        (row_sample source.now.split.now row.starts source.now.coeffs source.now.depth source.now.chroma.now row.from) }
{
    for x in 0..row.n {
        let curr = source.chroma[row.from + x];
        output[row.from + x] = cross_at(source, row.starts, x, curr);
    }
}
