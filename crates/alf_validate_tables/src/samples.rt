// Causes 12 and 13: samples, and the addresses of the CTB list.
ghost use Rattle.std.specs.Prelude.{◌≡◌, true, ◌&&◌, ltb, []};
ghost use Rattle.alf_spec.specs.Lists.{implies, every};
ghost use Rattle.alf_spec.specs.Input.{Layout as LayoutValue, given, input_of};
ghost use Rattle.alf_spec.specs.Filters.{operation_of};
ghost use Rattle.alf_spec.specs.Geometry.{total_ctbs};
ghost use Rattle.alf_spec.specs.Faults.{bit_depth_valid, samples_valid, addresses_valid};

use crate::entries::samples_below;
use alf_spec::{Filter, FilterInput, Picture};
use alf_validate_layout::entries::every;

// Whether each sample of a plane is below 1 << BitDepth.
#[tactic(auto, using(crate::proofs::BitDepth::depths), unfolding(alf_spec::specs::Faults::samples_valid))]
pub fn samples_valid(picture: Picture, plane: &[u16]) -> bool
    requires { bit_depth_valid picture ≡ true }
    ensures { result ≡ samples_valid picture plane.now }
{
    samples_below(plane, 1u16 << picture.bit_depth)
}

// Whether the samples of the planes that a filter is given are valid.
pub fn planes_valid(filter: Filter, input: &FilterInput) -> bool
    requires { bit_depth_valid input.now.layout.picture ≡ true }
    ensures { result ≡ (implies (given (operation_of filter)).luma (samples_valid input.now.layout.picture input.now.luma)
        && implies (given (operation_of filter)).chroma (samples_valid input.now.layout.picture input.now.chroma)) }
{
    let picture = input.layout.picture;
    match filter {
        Filter::Luma => samples_valid(picture, input.luma),
        Filter::Chroma(_) => samples_valid(picture, input.chroma),
        Filter::CrossComponent(_) => {
            samples_valid(picture, input.luma) & samples_valid(picture, input.chroma)
        }
    }
}

// Whether each address of the list is below the number of CTBs, which is cause 13 of every layout with so many.
pub fn addresses_valid(ctb_total: usize, ctb_list: &[u32]) -> bool
    ensures own { result ≡ every (λ n. ltb n ctb_total) ctb_list.now }
    ensures part { (l : LayoutValue) → total_ctbs l ≡ ctb_total
        → result ≡ addresses_valid (input_of l [] [] [] [] [] ctb_list.now [] [] 0) }
{
    every(ctb_list, |address| (*address as usize) < ctb_total)
}
