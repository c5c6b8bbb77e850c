// The judge of the isolation test.
ghost use Rattle.std.specs.Prelude.{◌≡◌};
ghost use Rattle.alf_spec.specs.Answers.{number_of};
ghost use Rattle.alf_spec.specs.Faults.{isolation_fault};

use alf_spec::{Fault, Layout};
use alf_validate_layout::layout::layout_fault;
use alf_validate_layout::require::require;
use alf_validate_tables::region::{region_length_valid, region_valid};

// The lowest fault of the isolation test's input, a layout and a region. The region's entries are judged last.
#[tactic(auto, using(crate::proofs::Lowest::judged), unfolding(alf_spec::specs::Faults::isolation_fault, alf_spec::specs::Faults::unless))]
pub fn judge_isolation(layout: &Layout, region: &[u8]) -> Result<(), Fault>
    ensures { number_of result ≡ isolation_fault layout.now region.now }
{
    layout_fault(layout, true, region_length_valid(layout, region))?;
    require(region_valid(region), Fault::Region)
}
