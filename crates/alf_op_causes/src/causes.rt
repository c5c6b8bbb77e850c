// The causes on the four sides of a luma sample, by the rule that the pieces of a CTB are found by.
ghost use Rattle.std.specs.Prelude.{◌≡◌, true};
ghost use Rattle.alf_spec.specs.Boundary.{clip, cause_of};
ghost use Rattle.alf_spec.specs.Faults.{causes_fault};
ghost use Rattle.alf_spec.specs.Causes.{causes_at};
ghost use Rattle.alf_boundary.specs.Clips.{side_of, axis_along, sides_along, InCtb};

use alf_boundary::clips::{CtbAxis, cause_of, column_axis, find_clip, row_axis};
use alf_boundary::sides::sides_of;
use alf_math::grid::grid;
use alf_spec::{ClipCause, Ctb, Layout, SideCauses};

// The cause on one side of x, a position of the axis's CTB.
fn cause_at(axis: CtbAxis, boundaries: &[u16], after: bool, x: u32) -> ClipCause
    requires { InCtb axis x }
    ensures { result ≡ cause_of (clip (axis_along axis boundaries.now 1) x (sides_along axis) (side_of after)) }
{
    cause_of(find_clip(axis, boundaries, after, x))
}

// The four causes; the layout and the position are accepted already. The line lies 4 rows above a CTB's bottom; columns have none.
pub fn causes_at(layout: &Layout, x: u32, y: u32) -> SideCauses
    requires { causes_fault layout.now true x y ≡ 0 }
    ensures { result ≡ causes_at layout.now x y }
{
    let picture = layout.picture;
    let grid = grid(picture);
    let ctb = Ctb {
        column: x / grid.ctb,
        row: y / grid.ctb,
    };
    let sides = sides_of(layout, grid, ctb);
    let columns = column_axis(picture, grid, sides, ctb.column);
    let rows = row_axis(picture, grid, sides, 4, ctb.row);
    let virtual_columns = layout.virtual_columns;
    let virtual_rows = layout.virtual_rows;
    SideCauses {
        top: cause_at(rows, virtual_rows, false, y),
        bottom: cause_at(rows, virtual_rows, true, y),
        left: cause_at(columns, virtual_columns, false, x),
        right: cause_at(columns, virtual_columns, true, x),
    }
}
