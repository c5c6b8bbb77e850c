// The CTBs next to a CTB: found along one axis at a time, by the CTB's place among so many.
ghost use Rattle.std.specs.Prelude.{◌≡◌, ◌<◌};
ghost use Rattle.alf_boundary.specs.Neighbours.{neighbours_along, ctb_or_own, neighbours_of};

use alf_spec::{Ctb, Grid};

// The places next to a place along an axis, where there are CTBs.
#[derive(Clone, Copy)]
struct AxisNeighbours {
    pub before: Option<u32>,
    pub after: Option<u32>,
}

// The CTBs across the sides of a CTB, and across the two corners at which slices disable filtering. Where there is none, it is the CTB
// itself: a step into it is never disabled.
#[derive(Clone, Copy)]
pub struct Neighbours {
    pub left: Ctb,
    pub right: Ctb,
    pub above: Ctb,
    pub below: Ctb,
    pub upper_left: Ctb,
    pub lower_right: Ctb,
}

// What is next to place `at` of so many CTBs along an axis.
fn neighbours_along(count: u32, at: u32) -> AxisNeighbours
    requires { at < count }
    ensures { result ≡ neighbours_along count at }
{
    let after = at + 1;
    AxisNeighbours {
        before: at.checked_sub(1),
        after: (after < count).then_some(after),
    }
}

// The CTB at this column and row where there are both, and a CTB itself where there is none.
fn ctb_or_own(column: Option<u32>, row: Option<u32>, own: Ctb) -> Ctb
    ensures { result ≡ ctb_or_own column row own }
{
    match (column, row) {
        (Some(column), Some(row)) => Ctb {
            column: column,
            row: row,
        },
        _ => own,
    }
}

// The CTBs next to a CTB of the grid.
pub fn neighbours_of(grid: Grid, ctb: Ctb) -> Neighbours
    requires { (ctb.column < grid.columns) × (ctb.row < grid.rows) }
    ensures { result ≡ neighbours_of grid ctb }
{
    let x = ctb.column;
    let y = ctb.row;
    let across = neighbours_along(grid.columns, x);
    let down = neighbours_along(grid.rows, y);
    Neighbours {
        left: ctb_or_own(across.before, Some(y), ctb),
        right: ctb_or_own(across.after, Some(y), ctb),
        above: ctb_or_own(Some(x), down.before, ctb),
        below: ctb_or_own(Some(x), down.after, ctb),
        upper_left: ctb_or_own(across.before, down.before, ctb),
        lower_right: ctb_or_own(across.after, down.after, ctb),
    }
}
