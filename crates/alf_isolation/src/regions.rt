// The isolation test of a region: the sides of all CTBs first, then the blocks of a CTB at a time, row by row.
ghost use Rattle.std.specs.Prelude.{◌≡◌, true, ◌*◌, ◌<◌};
ghost use Rattle.alf_spec.specs.Faults.{isolation_fault, picture_size_valid, ctb_size_valid};
ghost use Rattle.alf_spec.specs.Isolation.{isolated};
ghost use Rattle.alf_math.specs.Grids.{GridOf};
ghost use Rattle.alf_isolation.specs.Steps.{ctb_test, BlocksOf};

use crate::axis::{column_axis, row_axis};
use crate::neighbours::{BlockRow, run_passes};
use crate::steps::row_sides;
use alf_math::grid::grid;
use alf_sides::{CTBS, plan_sides, sides_at};
use alf_spec::{Ctb, Grid, Layout, Sides};

// Whether each block of the CTB passes. The sides of a row of blocks are found once. A `for` here and below, as in `run_passes`.
fn ctb_passes(layout: &Layout, size: u32, region: &[u8], ctb: Ctb, sides: Sides) -> bool
    requires { (BlocksOf layout.now.picture size region.now)
        × (ctb.column * size < layout.now.picture.width) × (ctb.row * size < layout.now.picture.height) }
    ensures { result ≡ ctb_test layout.now.picture size layout.now.virtual_columns layout.now.virtual_rows region.now ctb sides }
{
    let columns = column_axis(layout, size);
    let rows = row_axis(layout, size);
    let left = ctb.column * (size / 8);
    let top = ctb.row * (size / 8);
    let count = columns.blocks_in(ctb.column);
    for j in 0..rows.blocks_in(ctb.row) {
        let y = top + j;
        let row = BlockRow {
            from: y * (columns.size / 8),
            sides: row_sides(&rows, sides, y),
        };
        if !run_passes(&columns, region, row, left, count) {
            return false;
        }
    }
    true
}

// The grid of the layout's picture.
fn grid_of(layout: &Layout) -> Grid
    requires { (picture_size_valid layout.now.picture ≡ true) × (ctb_size_valid layout.now.picture ≡ true) }
    ensures { GridOf layout.now.picture result }
{
    grid(layout.picture)
}

// Whether the region is isolated; the layout and the region are accepted already.
pub fn region_isolated(layout: &Layout, region: &[u8]) -> bool
    requires { isolation_fault layout.now region.now ≡ 0 }
    ensures { result ≡ isolated layout.now region.now }
{
    let grid = grid_of(layout);
    let mut table: [u16; CTBS] = [0; CTBS];
    plan_sides(layout, grid, &mut table);
    for k in 0..grid.columns * grid.rows {
        let ctb = Ctb {
            column: k % grid.columns,
            row: k / grid.columns,
        };
        let sides = sides_at(&table, k);
        if !ctb_passes(layout, grid.ctb, region, ctb, sides) {
            return false;
        }
    }
    true
}
