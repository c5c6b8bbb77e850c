// The cross-component filter of a picture: the correction of chroma from luma.
#![tactic(auto)]

ghost use Rattle.std.specs.Prelude.{length};
ghost use Rattle.alf_spec.specs.Input.{cross_component, with_output};
ghost use Rattle.alf_spec.specs.Answers.{number_of};
ghost use Rattle.alf_spec.specs.Runs.{Ran};

use alf_op_filter::filter_picture;
use alf_spec::{Fault, Filter, FilterInput};

// The lowest fault of the input, and the output stays as it was; or the output is the plane of the component, which is filtered already,
// with each listed CTB whose index is on corrected from luma, which is not filtered.
pub fn cross_component(component: u8, input: &FilterInput, output: &mut [u16]) -> Result<(), Fault>
    ensures { Ran (cross_component component) (with_output (length output.old) input.now) (number_of result) output.old output.new }
{
    filter_picture(Filter::CrossComponent(component), input, output)
}
