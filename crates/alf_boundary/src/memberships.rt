// Of which tile, slice and subpicture a CTB is, as the tables of the layout say.
ghost use Rattle.std.specs.Prelude.{◌≡◌, ◌+◌, ◌*◌};
ghost use Rattle.alf_boundary.specs.Memberships.{InTables, membership_at};

use alf_spec::{Ctb, Layout};

// The tile, the slice and the subpicture of a CTB, and whether that subpicture's switch is on.
#[derive(Clone, Copy)]
pub struct Membership {
    pub tile_column: u8,
    pub tile_row: u8,
    pub slice: u8,
    pub subpic: u8,
    pub across_subpic: bool,
}

// The address of a CTB in a grid with so many CTBs in a row.
pub fn address(columns: u32, ctb: Ctb) -> usize
    ensures { result ≡ ctb.row * columns + ctb.column }
{
    (ctb.row as usize) * (columns as usize) + (ctb.column as usize)
}

// The membership of a CTB, by the layout's tables of a grid with so many CTBs in a row.
pub fn membership_of(layout: &Layout, columns: u32, ctb: Ctb) -> Membership
    requires { InTables layout.now columns ctb }
    ensures { result ≡ membership_at layout.now columns ctb }
{
    let at = address(columns, ctb);
    let subpic = layout.subpic_map[at];
    Membership {
        tile_column: layout.tile_columns[ctb.column as usize],
        tile_row: layout.tile_rows[ctb.row as usize],
        slice: layout.slice_map[at],
        subpic: subpic,
        across_subpic: layout.subpic_across[subpic as usize] != 0,
    }
}
