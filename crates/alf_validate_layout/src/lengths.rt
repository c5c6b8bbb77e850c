// Cause 5: the slice count, and the lengths of the layout's tables.
ghost use Rattle.std.specs.Prelude.{◌≡◌};
ghost use Rattle.alf_spec.specs.Input.{Layout as LayoutValue};
ghost use Rattle.alf_spec.specs.Faults.{layout_lengths_valid};
ghost use Rattle.alf_math.specs.Grids.{GridOf};

use alf_spec::{Grid, Layout};

// Whether there are 1 to 256 slices, a tile number for each CTB column and row, a slice and a subpicture number for each CTB, and 64
// switches.
pub fn layout_lengths_valid(layout: &Layout, grid: Grid) -> bool
    requires { GridOf layout.now.picture grid }
    ensures own { result ≡ layout_lengths_valid layout.now }
    ensures part { (l : LayoutValue) → l.picture ≡ layout.now.picture → l.tile_columns ≡ layout.now.tile_columns
        → l.tile_rows ≡ layout.now.tile_rows → l.slice_map ≡ layout.now.slice_map → l.subpic_map ≡ layout.now.subpic_map
        → l.subpic_across ≡ layout.now.subpic_across → result ≡ layout_lengths_valid l }
{
    let columns = grid.columns as usize;
    let rows = grid.rows as usize;
    let total = columns * rows;
    let slices = layout.picture.slice_count;
    ((1 <= slices) & (slices <= 256))
        & ((layout.tile_columns.len() == columns)
            & ((layout.tile_rows.len() == rows)
                & ((layout.slice_map.len() == total)
                    & ((layout.subpic_map.len() == total) & (layout.subpic_across.len() == 64)))))
}
