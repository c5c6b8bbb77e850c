// Causes 8 and 9: the slice map and the subpicture map.
ghost use Rattle.std.specs.Prelude.{◌≡◌, ◌*◌, length};
ghost use Rattle.alf_spec.specs.Input.{Layout as LayoutValue};
ghost use Rattle.alf_spec.specs.Faults.{slices_valid, subpictures_valid};
ghost use Rattle.alf_math.specs.Grids.{GridOf};

use crate::corners::{Slices, Subpictures, corners_valid};
use crate::entries::bytes_below;
use alf_spec::{Grid, Layout};

// Cause 8: a slice number below the slice count for each CTB, and the slice rule at each corner.
pub fn slices_valid(layout: &Layout, grid: Grid) -> bool
    requires { (GridOf layout.now.picture grid) × (length layout.now.slice_map ≡ grid.columns * grid.rows) }
    ensures own { result ≡ slices_valid layout.now }
    ensures part { (l : LayoutValue) → l.picture ≡ layout.now.picture → l.slice_map ≡ layout.now.slice_map → result ≡ slices_valid l }
{
    let map = layout.slice_map;
    bytes_below(map, layout.picture.slice_count)
        & corners_valid::<Slices>(map, grid.columns as usize, grid.rows as usize)
}

// Cause 9: a subpicture number below 64 for each CTB, switches 0 or 1, and the subpicture rule at each corner.
pub fn subpictures_valid(layout: &Layout, grid: Grid) -> bool
    requires { (GridOf layout.now.picture grid) × (length layout.now.subpic_map ≡ grid.columns * grid.rows) }
    ensures own { result ≡ subpictures_valid layout.now }
    ensures part { (l : LayoutValue) → l.picture ≡ layout.now.picture → l.subpic_map ≡ layout.now.subpic_map
        → l.subpic_across ≡ layout.now.subpic_across → result ≡ subpictures_valid l }
{
    let map = layout.subpic_map;
    bytes_below(map, 64)
        & (bytes_below(layout.subpic_across, 2)
            & corners_valid::<Subpictures>(map, grid.columns as usize, grid.rows as usize))
}
