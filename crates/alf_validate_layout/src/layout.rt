// The lowest of causes 1 to 9, which every operation judges.
ghost use Rattle.std.specs.Prelude.{◌≡◌};
ghost use Rattle.alf_spec.specs.Answers.{number_of};
ghost use Rattle.alf_spec.specs.Faults.{layout_fault};

use crate::lengths::layout_lengths_valid;
use crate::maps::{slices_valid, subpictures_valid};
use crate::picture::{bit_depth_valid, chroma_format_valid, ctb_size_valid, picture_size_valid};
use crate::require::require;
use crate::tiles::tiles_valid;
use crate::virtual_boundaries::virtual_boundaries_valid;
use alf_math::grid::grid;
use alf_spec::{Fault, Layout};

// The lowest of causes 1 to 9. An operation judges its component, beside cause 4, and the lengths of what else it is given, beside 5.
#[tactic(auto, using(crate::proofs::Layouts::full_maps), unfolding(alf_spec::specs::Faults::layout_fault, alf_spec::specs::Faults::unless))]
pub fn layout_fault(
    layout: &Layout,
    component_valid: bool,
    lengths_valid: bool,
) -> Result<(), Fault>
    ensures { number_of result ≡ layout_fault layout.now component_valid lengths_valid 0 }
{
    let picture = layout.picture;
    require(picture_size_valid(picture), Fault::PictureSize)?;
    require(ctb_size_valid(picture), Fault::CtbSize)?;
    require(bit_depth_valid(picture), Fault::BitDepth)?;
    require(
        chroma_format_valid(picture) & component_valid,
        Fault::ChromaFormat,
    )?;
    let grid = grid(picture);
    require(
        layout_lengths_valid(layout, grid) & lengths_valid,
        Fault::Length,
    )?;
    require(
        virtual_boundaries_valid(layout, grid),
        Fault::VirtualBoundary,
    )?;
    require(tiles_valid(layout), Fault::Tile)?;
    require(slices_valid(layout, grid), Fault::Slice)?;
    require(subpictures_valid(layout, grid), Fault::Subpicture)
}
