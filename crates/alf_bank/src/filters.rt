// The shape of a filter's field, and where its numbers stand in a bank in memory.
ghost use Rattle.std.specs.Prelude.{◌≡◌, ◌≤◌};
ghost use Rattle.alf_bank.specs.Filters.{shape_of, size_of, count_of, start_of};

use crate::{FilterId, FilterShape};

// By tag: of a luma filter, a chroma alternative, and a cross-component filter, which is also the answer for any other tag. The tag stays a
// number, as in FilterId: the reader asks with any byte of a file.
#[tactic(auto, unfolding(crate::specs::Filters::shape_of))]
pub fn shape_of(tag: u8) -> FilterShape
    ensures { (result.leads ≡ (shape_of tag).leads) × (result.coeffs ≡ (shape_of tag).coeffs) × (result.clips ≡ (shape_of tag).clips)
        × (result.leads ≤ 3) × (result.coeffs ≤ 12) × (result.clips ≤ 12) }
{
    let (leads, coeffs, clips) = match tag {
        2 => (2, 12, 12),
        3 => (2, 6, 6),
        _ => (3, 7, 0),
    };
    FilterShape {
        leads,
        coeffs,
        clips,
    }
}

// How many bytes a filter's value has: a coefficient takes one, a clip two.
#[tactic(auto, using(crate::proofs::FieldFaults::size_small))]
pub fn size_of(tag: u8) -> usize
    ensures { (result ≡ size_of (shape_of tag)) × (result ≤ 38) }
{
    let shape = shape_of(tag);
    shape.leads + shape.coeffs + 2 * shape.clips
}

// How many numbers a filter has: its coefficients and its clips.
pub fn count_of(tag: u8) -> usize
    ensures { (result ≡ count_of (shape_of tag)) × (result ≤ 24) }
{
    let shape = shape_of(tag);
    shape.coeffs + shape.clips
}

// Where the filter's numbers begin in the bank.
#[tactic(auto, unfolding(crate::specs::Filters::start_of))]
pub fn start_of(id: FilterId) -> usize
    ensures { result ≡ start_of id }
{
    let filter = usize::from(id.filter);
    let within = match id.tag {
        2 => 24 * filter,
        3 => 600 + 12 * filter,
        _ => 696 + (28 * usize::from(id.component) + 7 * filter),
    };
    752 * usize::from(id.aps) + within
}
