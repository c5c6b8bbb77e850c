// The lowest fault of the input of each operation that has an output. An operation judges the layout first, with its own component and
// lengths beside causes 4 and 5.
ghost use Rattle.std.specs.Prelude.{◌≡◌};
ghost use Rattle.alf_spec.specs.Input.{classes, chroma as of_chroma, cross_component, classes_input, with_output};
ghost use Rattle.alf_spec.specs.Filters.{operation_of};
ghost use Rattle.alf_spec.specs.Answers.{number_of};
ghost use Rattle.alf_spec.specs.Faults.{component_valid, fault};
ghost use Rattle.alf_validate.specs.Filters.{own_lengths_valid};

use alf_spec::{Fault, Filter, FilterInput, Layout, Picture};
use alf_validate_layout::layout::layout_fault;
use alf_validate_layout::require::require;
use alf_validate_tables::filter_tables::filter_tables_fault;
use alf_validate_tables::operation_lengths::{chroma_fits, filter_tables_fit, plane_fits};
use alf_validate_tables::samples::samples_valid;

// Whether there is chroma, and the component is Cb or Cr.
#[tactic(auto, unfolding(alf_spec::specs::Faults::component_valid))]
fn component_valid(picture: Picture, component: u8) -> bool
    ensures { (result ≡ component_valid (of_chroma component) picture) × (result ≡ component_valid (cross_component component) picture) }
{
    (picture.chroma_format != 0) & (component <= 1)
}

// The lowest fault of the class map's input.
#[tactic(auto, using(crate::proofs::Lowest::classes_judged), unfolding(alf_spec::specs::Faults::unless))]
pub fn judge_classes(layout: &Layout, luma: &[u16], output_length: usize) -> Result<(), Fault>
    ensures { number_of result ≡ fault classes (classes_input layout.now luma.now output_length) }
{
    let picture = layout.picture;
    let lengths_valid = plane_fits(picture, 1, 1, luma.len())
        & plane_fits(picture, 4, 4, output_length);
    layout_fault(layout, true, lengths_valid)?;
    require(samples_valid(picture, luma), Fault::Sample)
}

// Cause 4 of a filter: luma has no component to judge. A match on `Filter`, here and below: what is judged differs, not how.
#[tactic(auto, unfolding(alf_spec::specs::Faults::component_valid))]
fn own_component(filter: Filter, layout: &Layout) -> bool
    ensures { result ≡ component_valid (operation_of filter) layout.now.picture }
{
    match filter {
        Filter::Luma => true,
        Filter::Chroma(component) => component_valid(layout.picture, component),
        Filter::CrossComponent(component) => component_valid(layout.picture, component),
    }
}

// Cause 5 of a filter beside the tables that the filters share: the lengths of the planes and fixed tables that it is given, and of its
// output.
#[tactic(auto, unfolding(crate::specs::Filters::own_lengths_valid, alf_spec::specs::Faults::fixed_lengths_valid, alf_spec::specs::Geometry::plane_of))]
fn own_lengths(filter: Filter, input: &FilterInput, output_length: usize) -> bool
    ensures { result ≡ own_lengths_valid filter (with_output output_length input.now) }
{
    let layout = &input.layout;
    match filter {
        Filter::Luma => {
            ((input.fixed_filters.len() == 64 * 12) & (input.fixed_map.len() == 16 * 25))
                & (plane_fits(layout.picture, 1, 1, input.luma.len())
                    & plane_fits(layout.picture, 1, 1, output_length))
        }
        Filter::Chroma(_) => {
            chroma_fits(layout, input.chroma.len()) & chroma_fits(layout, output_length)
        }
        Filter::CrossComponent(_) => {
            plane_fits(layout.picture, 1, 1, input.luma.len())
                & (chroma_fits(layout, input.chroma.len()) & chroma_fits(layout, output_length))
        }
    }
}

// The lowest fault of a filter's input. What the filter is not given is not judged.
#[tactic(auto, using(crate::proofs::Lowest::filter_then))]
pub fn judge_filter(filter: Filter, input: &FilterInput, output_length: usize) -> Result<(), Fault>
    ensures { number_of result ≡ fault (operation_of filter) (with_output output_length input.now) }
{
    let component_valid = own_component(filter, &input.layout);
    let lengths_valid = filter_tables_fit(input) & own_lengths(filter, input, output_length);
    layout_fault(&input.layout, component_valid, lengths_valid)?;
    filter_tables_fault(filter, input)
}
