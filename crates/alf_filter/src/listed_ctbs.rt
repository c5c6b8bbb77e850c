// Which CTBs are filtered: those that are listed and whose flag or index is on. The list may repeat an address and has no order; a mark for
// each CTB has neither, so that each CTB is filtered at most once.
ghost use Rattle.std.specs.Prelude.{◌≡◌, ℕ, ◌+◌, ◌*◌, ◌≤◌, ◌<◌, length, get_or};
ghost use Rattle.alf_spec.specs.Lists.{painted};
ghost use Rattle.alf_spec.specs.Input.{Input};
ghost use Rattle.alf_ctb.specs.Tables.{ComponentOf};
ghost use Rattle.alf_filter.specs.FilteredCtbs.{is_listed, on_mark};

use alf_ctb::is_on;
use alf_spec::{Filter, FilterInput};

// A 1 for each CTB that is listed and on, a 0 for each that is listed and off. A mark stays a number: the definition of what is written,
// `painted`, is one of lists of numbers.
pub(crate) fn mark_listed(filter: Filter, input: &FilterInput, marks: &mut [u8])
    requires { (ComponentOf filter) × ((j : ℕ) → j < length input.now.ctb_list
        → (get_or input.now.ctb_list j 0 < length marks.old)
        × (8 * get_or input.now.ctb_list j 0 + 8 ≤ length input.now.ctb_params)) }
    ensures { (length marks.new ≡ length marks.old)
        × ((i : Input) → i.ctb_params ≡ input.now.ctb_params
        → marks.new ≡ painted marks.old (is_listed input.now.ctb_list) (on_mark filter i)) }
{
    let list = input.ctb_list;
    for address in list {
        let k = *address as usize;
        marks[k] = u8::from(is_on(filter, input, k));
    }
}
