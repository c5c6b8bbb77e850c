// The sides of a CTB, by why filtering across them is disabled, and its corners across which it is.
ghost use Rattle.std.specs.Prelude.{◌≡◌, List, ℕ, ◌+◌, ◌*◌, ◌<◌, length};
ghost use Rattle.alf_math.specs.Grids.{GridOf};
ghost use Rattle.alf_boundary.specs.Tables.{MembershipTables, SidesOf, with_virtual};
ghost use Rattle.alf_boundary.specs.Memberships.{InTables};
ghost use Rattle.alf_boundary.specs.SideCauses.{slice_step_disabled, cause_into, origin_at, axis_causes, corner_toward};

use crate::memberships::{Membership, address, membership_of};
use crate::neighbours::neighbours_of;
use alf_spec::{ClipCause, Ctb, Grid, Layout, Sides};

// What decides at each side of a CTB: its membership, and the picture's switches for tiles and slices. With them the number of CTBs in a
// row, by which a neighbour's address is known.
#[derive(Clone, Copy)]
struct Origin {
    pub own: Membership,
    pub across_tiles: bool,
    pub across_slices: bool,
    pub columns: u32,
}

// Why filtering across the sides of a CTB along one axis is disabled: the side before it, and the side after it.
#[derive(Clone, Copy)]
struct AxisCauses {
    pub before: ClipCause,
    pub after: ClipCause,
}

// Whether slices disable the step into a CTB of this slice: it is another slice, and the switch for slices is off.
fn slice_step_disabled(origin: Origin, slice: u8) -> bool
    ensures { result ≡ slice_step_disabled origin slice }
{
    let own = origin.own;
    !(own.slice == slice) & !origin.across_slices
}

// What disables the step into a CTB of this membership: it is of another tile, slice or subpicture, and the switch for that is off. The
// first of these counts.
fn step_cause(origin: Origin, into: Membership) -> ClipCause
    ensures { result ≡ cause_into origin into }
{
    let own = origin.own;
    let same_tile = (own.tile_column == into.tile_column) & (own.tile_row == into.tile_row);
    let tile = !same_tile & !origin.across_tiles;
    let slice = slice_step_disabled(origin, into.slice);
    let subpic = !(own.subpic == into.subpic) & !own.across_subpic;
    if tile {
        return ClipCause::Tile;
    }
    if slice {
        return ClipCause::Slice;
    }
    if subpic {
        return ClipCause::Subpicture;
    }
    ClipCause::Open
}

// What decides at the sides of a CTB, in a grid with so many CTBs in a row.
fn origin_of(layout: &Layout, columns: u32, ctb: Ctb) -> Origin
    requires { InTables layout.now columns ctb }
    ensures { result ≡ origin_at layout.now columns ctb }
{
    Origin {
        own: membership_of(layout, columns, ctb),
        across_tiles: layout.picture.across_tiles,
        across_slices: layout.picture.across_slices,
        columns: columns,
    }
}

// Why filtering across the two sides along one axis is disabled, by the CTBs next to them.
fn axis_causes(layout: &Layout, origin: Origin, before: Ctb, after: Ctb) -> AxisCauses
    requires { (InTables layout.now origin.columns before) × (InTables layout.now origin.columns after) }
    ensures { result ≡ axis_causes layout.now origin before after }
{
    AxisCauses {
        before: step_cause(origin, membership_of(layout, origin.columns, before)),
        after: step_cause(origin, membership_of(layout, origin.columns, after)),
    }
}

// Whether filtering across the corner toward the CTB n is disabled: slices alone decide.
fn corner_disabled(layout: &Layout, origin: Origin, n: Ctb) -> bool
    requires { n.row * origin.columns + n.column < length layout.now.slice_map }
    ensures { result ≡ corner_toward layout.now origin n }
{
    let at = address(origin.columns, n);
    slice_step_disabled(origin, layout.slice_map[at])
}

// The sides of a CTB, by why filtering across them is disabled, and its corners across which it is, whatever the virtual boundaries are.
pub fn sides_of(layout: &Layout, grid: Grid, ctb: Ctb) -> Sides
    requires { (GridOf layout.now.picture grid) × (MembershipTables grid layout.now)
        × (ctb.column < grid.columns) × (ctb.row < grid.rows) }
    ensures { (columns rows : List ℕ) → SidesOf (with_virtual columns rows layout.now) ctb result }
{
    let origin = origin_of(layout, grid.columns, ctb);
    let near = neighbours_of(grid, ctb);
    let across = axis_causes(layout, origin, near.left, near.right);
    let down = axis_causes(layout, origin, near.above, near.below);
    let left = across.before;
    let right = across.after;
    let top = down.before;
    let bottom = down.after;
    Sides {
        left: left,
        right: right,
        top: top,
        bottom: bottom,
        upper_left: corner_disabled(layout, origin, near.upper_left),
        lower_right: corner_disabled(layout, origin, near.lower_right),
    }
}
