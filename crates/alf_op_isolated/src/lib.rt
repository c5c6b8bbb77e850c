// The isolation test (01: shut test of an area).
#![tactic(auto)]

ghost use Rattle.std.specs.Prelude.{◌≡◌};
ghost use Rattle.std.proofs.Math.Option.{some, none};
ghost use Rattle.alf_spec.specs.Faults.{isolation_fault};
ghost use Rattle.alf_spec.specs.Isolation.{isolated as isolated_by};
ghost use Rattle.alf_spec.specs.Answers.{number_of, answer_of, kept};

use alf_isolation::region_isolated;
use alf_spec::{Fault, Layout};
use alf_validate::judge_isolation;

// The lowest fault of the layout or the region; or whether no open step leads out of the region. The region has one number for each
// 8 by 8 luma block: 1 inside, 0 outside.
pub fn isolated(layout: &Layout, region: &[u8]) -> Result<bool, Fault>
    ensures { let fault = isolation_fault layout.now region.now in
        (number_of result ≡ fault) × (answer_of result ≡ kept fault (some (isolated_by layout.now region.now)) none) }
{
    judge_isolation(layout, region)?;
    Ok(region_isolated(layout, region))
}
