// Causes 10 to 13 of the three filters.
ghost use Rattle.std.specs.Prelude.{◌≡◌};
ghost use Rattle.alf_spec.specs.Answers.{number_of};
ghost use Rattle.alf_validate_tables.specs.Tables.{filter_tables_fault, TablesFit};

use crate::filters::filters_valid;
use crate::parameters::parameters_valid;
use crate::samples::{addresses_valid, planes_valid};
use alf_spec::{Fault, Filter, FilterInput};
use alf_validate_layout::require::require;

// The lowest of causes 10 to 13. What the filter is not given is not judged.
#[tactic(auto, using(crate::proofs::Tables::by_map), unfolding(crate::specs::Tables::filter_tables_fault, alf_spec::specs::Faults::unless))]
pub fn filter_tables_fault(filter: Filter, input: &FilterInput) -> Result<(), Fault>
    requires { TablesFit input.now }
    ensures { number_of result ≡ filter_tables_fault filter input.now }
{
    require(parameters_valid(input), Fault::Parameter)?;
    require(filters_valid(filter, input), Fault::Filter)?;
    require(planes_valid(filter, input), Fault::Sample)?;
    // an accepted slice map has an entry for each CTB
    let ctb_total = input.layout.slice_map.len();
    require(addresses_valid(ctb_total, input.ctb_list), Fault::Address)
}
