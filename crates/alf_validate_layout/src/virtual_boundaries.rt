// Cause 6: virtual boundaries.
ghost use Rattle.std.specs.Prelude.{◌≡◌, ◌+◌, ◌-◌, length, leb};
ghost use Rattle.alf_spec.specs.Lists.{all_below, every};
ghost use Rattle.alf_spec.specs.Input.{Layout as LayoutValue};
ghost use Rattle.alf_spec.specs.Faults.{virtual_position_valid, apart_at, virtual_list_valid, virtual_boundaries_valid};
ghost use Rattle.alf_math.specs.Grids.{GridOf};

use crate::entries::every;
use alf_spec::{Grid, Layout};

// Whether a virtual boundary is a multiple of 8, from 8 to the size less 8.
fn position_valid(size: u32, position: u16) -> bool
    ensures { result ≡ virtual_position_valid size position }
{
    (position % 8 == 0) & ((8 <= position) & (position as u64 + 8 <= size as u64))
}

// Whether each virtual boundary of a list is.
fn each_position_valid(size: u32, list: &[u16]) -> bool
    ensures { result ≡ every (virtual_position_valid size) list.now }
{
    every(list, |position| position_valid(size, *position))
}

// Whether a virtual boundary lies at least a CTB's side after another.
fn apart(ctb: u32, first: u16, second: u16) -> bool
    ensures { result ≡ leb (first + ctb) second }
{
    first as u64 + ctb as u64 <= second as u64
}

// Whether each virtual boundary but the first lies at least a CTB's side after the one before.
fn each_apart(ctb: u32, list: &[u16]) -> bool
    ensures { result ≡ all_below (length list.now - 1) (apart_at ctb list.now) }
{
    list.windows(2).all(|pair| apart(ctb, pair[0], pair[1]))
}

// Whether a list of virtual columns or rows is valid: three at most.
#[tactic(auto, unfolding(alf_spec::specs::Faults::virtual_list_valid))]
fn virtual_list_valid(size: u32, ctb: u32, list: &[u16]) -> bool
    ensures { result ≡ virtual_list_valid size ctb list.now }
{
    list.len() <= 3 && each_position_valid(size, list) && each_apart(ctb, list)
}

// Cause 6: virtual columns and rows.
#[tactic(auto, unfolding(alf_spec::specs::Faults::virtual_boundaries_valid))]
pub fn virtual_boundaries_valid(layout: &Layout, grid: Grid) -> bool
    requires { GridOf layout.now.picture grid }
    ensures own { result ≡ virtual_boundaries_valid layout.now }
    ensures part { (l : LayoutValue) → l.picture ≡ layout.now.picture → l.virtual_columns ≡ layout.now.virtual_columns
        → l.virtual_rows ≡ layout.now.virtual_rows → result ≡ virtual_boundaries_valid l }
{
    virtual_list_valid(layout.picture.width, grid.ctb, layout.virtual_columns)
        & virtual_list_valid(layout.picture.height, grid.ctb, layout.virtual_rows)
}
