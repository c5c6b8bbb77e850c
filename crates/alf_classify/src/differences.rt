// The second differences of a piece's copy, in four directions: once for each sample, since the windows of the blocks overlap.
//   (1472) to (1475)  filt = Abs( 2 * sample − one neighbour − the neighbour opposite it )
// where filtV takes the neighbours above and below, `pitch` before and after the sample in the copy; filtH those to its left and right, 1
// before and after; filtD0 those above left and below right, `pitch` + 1 before and after; filtD1 those above right and below left,
// `pitch` − 1 before and after.
ghost use Rattle.std.specs.Prelude.{◌≡◌, ℕ, ◌+◌, ◌-◌, ◌*◌, ◌≤◌, ◌<◌, length, get_or};
ghost use Rattle.alf_spec.specs.Lists.{painted};
ghost use Rattle.alf_lists.specs.Regions.{between};
ghost use Rattle.alf_pieces.specs.Copies.{area};
ghost use Rattle.alf_classify.specs.Windows.{difference_at, difference_from, Differences};

use alf_math::windows::second_difference;

// A copy has at most 134 by 134 samples.
pub const AREA: usize = 17956;

// The second difference of sample k of the copy and the two samples that lie `step` before and after it.
#[tactic(auto, unfolding(crate::specs::Windows::difference_at))]
fn difference(copy: &[u16], k: usize, step: usize) -> u16
    requires { (step ≤ k) × (k + step < length copy.now)
        × (get_or copy.now k 0 < 4096) × (get_or copy.now (k - step) 0 < 4096) × (get_or copy.now (k + step) 0 < 4096) }
    ensures { result ≡ difference_at copy.now step k }
{
    second_difference(copy[k], copy[k - step], copy[k + step])
}

// The second differences in one direction, but for `margin` of them at each end. One run over all rows: a difference that spans the ends of
// two rows is never summed.
fn second_differences(copy: &[u16], margin: usize, step: usize, differences: &mut [u16], at: usize)
    requires { (step ≤ margin) × (margin + margin ≤ length copy.now) × (at + length copy.now ≤ length differences.old)
        × ((k : ℕ) → k < length copy.now → get_or copy.now k 0 < 4096) }
    ensures { differences.new ≡ painted differences.old (between (at + margin) (length copy.now - (margin + margin)))
        (difference_from copy.now step at) }
{
    let first = at + margin;
    for x in 0..copy.len() - (margin + margin) {
        differences[first + x] = difference(copy, margin + x, step);
    }
}

// The second differences in the four directions, one list of AREA after the other: filtV, filtH, filtD0, filtD1. They stay one list, since
// the filter of cross-component, which finds no classes, takes the same room for its split copy.
pub(crate) fn all_differences(copy: &[u16], pitch: usize, differences: &mut [u16])
    requires { (1 ≤ pitch) × (2 * (pitch + 1) ≤ length copy.now) × (length copy.now ≤ area) × (4 * area ≤ length differences.old)
        × ((k : ℕ) → k < length copy.now → get_or copy.now k 0 < 4096) }
    ensures { (length differences.new ≡ length differences.old)
        × (Differences copy.now pitch (length copy.now) differences.new) }
{
    let margin = pitch + 1;
    second_differences(copy, margin, pitch, differences, 0);
    second_differences(copy, margin, 1, differences, AREA);
    second_differences(copy, margin, pitch + 1, differences, 2 * AREA);
    second_differences(copy, margin, pitch - 1, differences, 3 * AREA);
}
