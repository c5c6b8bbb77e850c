// The causes at the four sides of a luma sample (02, card 1).
#![tactic(auto)]

mod causes;

ghost use Rattle.std.specs.Prelude.{◌≡◌, true};
ghost use Rattle.std.proofs.Math.Option.{some, none};
ghost use Rattle.alf_spec.specs.Faults.{causes_fault};
ghost use Rattle.alf_spec.specs.Causes.{causes_at};
ghost use Rattle.alf_spec.specs.Answers.{number_of, answer_of, kept};

use alf_spec::{Fault, Layout, SideCauses};
use alf_validate::judge_causes;
use causes::causes_at;

// The lowest fault of the layout or the position; or the causes on the four sides of the luma sample at column x and row y.
pub fn clip_causes(layout: &Layout, x: u32, y: u32) -> Result<SideCauses, Fault>
    ensures { let fault = causes_fault layout.now true x y in
        (number_of result ≡ fault) × (answer_of result ≡ kept fault (some (causes_at layout.now x y)) none) }
{
    judge_causes(layout, x, y)?;
    Ok(causes_at(layout, x, y))
}
