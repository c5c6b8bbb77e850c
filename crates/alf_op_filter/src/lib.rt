// A filter of a picture: its input is judged, then its plane is filtered. The three filters are this one function.
#![tactic(auto)]

ghost use Rattle.std.specs.Prelude.{length};
ghost use Rattle.alf_spec.specs.Input.{with_output};
ghost use Rattle.alf_spec.specs.Filters.{operation_of};
ghost use Rattle.alf_spec.specs.Answers.{number_of};
ghost use Rattle.alf_spec.specs.Runs.{Ran};

use alf_filter::filter_plane;
use alf_spec::{Fault, Filter, FilterInput};
use alf_validate::judge_filter;

// The lowest fault of the input, and the output stays as it was; or the output is the plane that the filter filters, with each listed CTB
// whose flag or index is on filtered. What the filter is not given plays no part.
pub fn filter_picture(filter: Filter, input: &FilterInput, output: &mut [u16]) -> Result<(), Fault>
    ensures { Ran (operation_of filter) (with_output (length output.old) input.now) (number_of result) output.old
        output.new }
{
    judge_filter(filter, input, output.len())?;
    filter_plane(filter, input, output);
    Ok(())
}
