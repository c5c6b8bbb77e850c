// The luma filter of a picture.
#![tactic(auto)]

ghost use Rattle.std.specs.Prelude.{length};
ghost use Rattle.alf_spec.specs.Input.{luma as luma_of, with_output};
ghost use Rattle.alf_spec.specs.Answers.{number_of};
ghost use Rattle.alf_spec.specs.Runs.{Ran};

use alf_op_filter::filter_picture;
use alf_spec::{Fault, Filter, FilterInput};

// The lowest fault of the input, and the output stays as it was; or the output is the luma plane with each listed CTB whose flag is on
// filtered. The classes are worked out here.
pub fn luma(input: &FilterInput, output: &mut [u16]) -> Result<(), Fault>
    ensures { Ran luma_of (with_output (length output.old) input.now) (number_of result) output.old output.new }
{
    filter_picture(Filter::Luma, input, output)
}
