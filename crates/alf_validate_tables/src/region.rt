// Causes 5 and 14 of a region: its length, and its entries.
ghost use Rattle.std.specs.Prelude.{◌≡◌};
ghost use Rattle.alf_spec.specs.Input.{Layout as LayoutValue};
ghost use Rattle.alf_spec.specs.Faults.{region_length_valid, region_valid};

use crate::operation_lengths::plane_fits;
use alf_spec::Layout;
use alf_validate_layout::entries::bytes_below;

// Cause 5: whether a region has an entry for each 8 by 8 luma block, of this layout and of every other with its picture.
#[tactic(auto, unfolding(alf_spec::specs::Faults::region_length_valid, alf_spec::specs::Geometry::plane_of))]
pub fn region_length_valid(layout: &Layout, region: &[u8]) -> bool
    ensures own { result ≡ region_length_valid layout.now region.now }
    ensures part { (l : LayoutValue) → l.picture ≡ layout.now.picture → result ≡ region_length_valid l region.now }
{
    plane_fits(layout.picture, 8, 8, region.len())
}

// Cause 14: whether each entry of a region is 0 or 1.
#[tactic(auto, using(alf_spec::proofs::Scans::every_up_to), unfolding(alf_spec::specs::Faults::region_valid))]
pub fn region_valid(region: &[u8]) -> bool
    ensures { result ≡ region_valid region.now }
{
    bytes_below(region, 2)
}
