// The rows and columns that the taps of a sample read, and their coefficients.
ghost use Rattle.std.specs.Prelude.{◌≡◌, ◌+◌, ◌≤◌, length};
ghost use Rattle.alf_spec.specs.CrossComponent.{cross_rows};
ghost use Rattle.alf_cross.specs.Taps.{cross_starts_of, seven};
ghost use Rattle.alf_cross.specs.Pieces.{cross_rows_of};

use crate::kernel::CrossStarts;
use crate::split::column_index;
use alf_boundary::clips::line_rule;
use alf_spec::CrossRows;

// Table 47, by the distance of the luma row from the bottom of its CTB.
#[tactic(auto, unfolding(alf_spec::specs::CrossComponent::cross_rows))]
fn cross_rows(line: bool, distance: u32) -> CrossRows
    ensures { result ≡ cross_rows line distance }
{
    let (y1, y2) = match (line, distance) {
        (true, 5 | 4) => (0, 0),
        (true, 6 | 3) => (1, 1),
        _ => (1, 2),
    };
    CrossRows { y1, y2 }
}

// Table 47 at luma row y.
pub(crate) fn rows_at(height: u32, ctb: u32, y: u32) -> CrossRows
    requires { (4 ≤ ctb) × (ctb ≤ 128) × (y ≤ 65535) }
    ensures { result ≡ cross_rows_of height ctb y }
{
    cross_rows(line_rule(height, ctb, y), ctb - y % ctb)
}

// What the taps of samples read whose luma row is row j of the copy, where a row of the copy has `pitch` samples.
pub(crate) fn cross_starts(pitch: usize, j: usize, r: CrossRows, step: usize) -> CrossStarts
    requires { (pitch ≤ 134) × (r.y1 ≤ j) × (j + r.y1 ≤ 134) × (j + r.y2 ≤ 134) }
    ensures { result ≡ cross_starts_of pitch j r step }
{
    let y1 = r.y1 as usize;
    let y2 = r.y2 as usize;
    CrossStarts {
        above1: (j - y1) * pitch,
        here: j * pitch,
        below1: (j + y1) * pitch,
        below2: (j + y2) * pitch,
        left: column_index(pitch, step, 2),
        own: column_index(pitch, step, 3),
        right: column_index(pitch, step, 4),
    }
}

// The coefficients of a CTB: the first seven of its numbers.
pub(crate) fn coefficients(filters: &[i16]) -> [i16; 7]
    requires { 7 ≤ length filters.now }
    ensures { result ≡ seven filters.now }
{
    [
        filters[0], filters[1], filters[2], filters[3], filters[4], filters[5], filters[6],
    ]
}
