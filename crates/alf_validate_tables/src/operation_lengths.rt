// Cause 5, the operations' part: the lengths of what an operation is given beside the layout, and of its output. The slice map has an entry
// for each CTB where the layout's own lengths are right, so that its length stands for the number of CTBs.
ghost use Rattle.std.specs.Prelude.{◌≡◌, ◌*◌, ◌/◌, ◌<◌, eqb, length};
ghost use Rattle.alf_spec.specs.Input.{Layout as LayoutValue};
ghost use Rattle.alf_spec.specs.Geometry.{total_ctbs, chroma_plane, plane_length};
ghost use Rattle.alf_spec.specs.Faults.{filter_lengths_valid};

use alf_math::grid::{sub_height, sub_width};
use alf_spec::{FilterInput, Layout, Picture};

// Whether a plane of the picture, with so many luma samples to one of its own in a row and in a column, has this length.
#[tactic(auto, using(crate::proofs::TableLengths::product_fits))]
pub fn plane_fits(picture: Picture, columns: u32, rows: u32, length: usize) -> bool
    requires { (0 < columns) × (0 < rows) }
    ensures { result ≡ eqb length (picture.width / columns * (picture.height / rows)) }
{
    length as u64 == ((picture.width / columns) as u64) * ((picture.height / rows) as u64)
}

// Whether a chroma plane has this length: of this layout, and of every other with its picture.
#[tactic(auto, unfolding(alf_spec::specs::Geometry::plane_of))]
pub fn chroma_fits(layout: &Layout, length: usize) -> bool
    ensures own { result ≡ eqb length (plane_length (chroma_plane layout.now)) }
    ensures part { (l : LayoutValue) → l.picture ≡ layout.now.picture → result ≡ eqb length (plane_length (chroma_plane l)) }
{
    let across = sub_width(layout.picture);
    let down = sub_height(layout.picture);
    plane_fits(layout.picture, across, down, length)
}

// Whether there are eight numbers for each CTB.
#[tactic(auto, using(crate::proofs::TableLengths::eight_each))]
fn ctb_params_fit(slice_map: usize, ctb_params: usize) -> bool
    ensures { result ≡ eqb ctb_params (8 * slice_map) }
{
    (ctb_params / 8 == slice_map) & (ctb_params % 8 == 0)
}

// What the three filters share: whether slice parameters, bank and CTB parameters have the lengths that they should.
#[tactic(auto, unfolding(alf_spec::specs::Faults::filter_lengths_valid))]
pub fn filter_tables_fit(input: &FilterInput) -> bool
    ensures { length input.now.layout.slice_map ≡ total_ctbs input.now.layout → result ≡ filter_lengths_valid input.now }
{
    let layout = &input.layout;
    (input.slice_params.len() as u64 == 11 * (layout.picture.slice_count as u64))
        & ((input.bank.len() == 8 * 752)
            & ctb_params_fit(layout.slice_map.len(), input.ctb_params.len()))
}
