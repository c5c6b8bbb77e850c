// The judge of the causes at a luma position.
ghost use Rattle.std.specs.Prelude.{◌≡◌, true};
ghost use Rattle.alf_spec.specs.Answers.{number_of};
ghost use Rattle.alf_spec.specs.Faults.{position_valid, causes_fault};

use alf_spec::{Fault, Layout, Picture};
use alf_validate_layout::layout::layout_fault;
use alf_validate_layout::require::require;

// Cause 15: whether the luma position lies in the picture.
#[tactic(auto, unfolding(alf_spec::specs::Faults::position_valid))]
fn position_valid(picture: Picture, x: u32, y: u32) -> bool
    ensures { result ≡ position_valid picture x y }
{
    (x < picture.width) & (y < picture.height)
}

// The lowest fault of a layout and a luma position at which the causes are asked for. The position is judged last.
#[tactic(auto, using(crate::proofs::Lowest::judged), unfolding(alf_spec::specs::Faults::causes_fault, alf_spec::specs::Faults::unless))]
pub fn judge_causes(layout: &Layout, x: u32, y: u32) -> Result<(), Fault>
    ensures { number_of result ≡ causes_fault layout.now true x y }
{
    layout_fault(layout, true, true)?;
    require(position_valid(layout.picture, x, y), Fault::Position)
}
