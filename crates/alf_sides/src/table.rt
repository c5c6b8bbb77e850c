// The table of the sides of all CTBs. An entry is a number and no Sides: whoever has a table has it on the stack, where it takes 32 KB so,
// and not 96.
ghost use Rattle.std.specs.Prelude.{◌≡◌, List, ℕ, ◌*◌, ◌≤◌, ◌<◌, length, get_or};
ghost use Rattle.alf_math.specs.Grids.{GridOf};
ghost use Rattle.alf_boundary.specs.Tables.{MembershipTables, with_virtual};
ghost use Rattle.alf_sides.specs.Entries.{sides_in};
ghost use Rattle.alf_sides.specs.Planned.{SidesPlanned};

use crate::entries::{entry_of, sides_in};
use alf_boundary::sides::sides_of;
use alf_spec::{Ctb, Grid, Layout, Sides};

// There are at most 128 by 128 CTBs.
pub const CTBS: usize = 16384;

// Writes an entry for each CTB of the picture into the table, whatever the virtual boundaries are.
pub fn plan_sides(layout: &Layout, grid: Grid, table: &mut [u16])
    requires { (GridOf layout.now.picture grid) × (grid.columns * grid.rows ≤ length table.old)
        × (MembershipTables grid layout.now) }
    ensures { (length table.new ≡ length table.old)
        × ((columns rows : List ℕ) → SidesPlanned (with_virtual columns rows layout.now) table.new) }
{
    for k in 0..grid.columns * grid.rows {
        let ctb = Ctb {
            column: k % grid.columns,
            row: k / grid.columns,
        };
        let sides = sides_of(layout, grid, ctb);
        table[k as usize] = entry_of(sides);
    }
}

// The sides of the CTB at address k.
pub fn sides_at(table: &[u16], k: u32) -> Sides
    requires { k < length table.now }
    ensures { result ≡ sides_in (get_or table.now k 0) }
{
    let at = k as usize;
    sides_in(table[at])
}
