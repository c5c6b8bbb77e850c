// A whole plane: what depends on a CTB alone is planned, the output is the input, and then each CTB that is marked is filtered.
ghost use Rattle.std.specs.Prelude.{◌≡◌, length};
ghost use Rattle.alf_spec.specs.Input.{with_output};
ghost use Rattle.alf_spec.specs.Faults.{fault};
ghost use Rattle.alf_spec.specs.Process.{result_of};
ghost use Rattle.alf_spec.specs.Filters.{operation_of};
ghost use Rattle.alf_ctb.specs.Filters.{plane_filtered};

use crate::ctbs::filter_marked;
use crate::listed_ctbs::mark_listed;
use alf_luma::tap_orders;
use alf_math::grid::grid;
use alf_pieces::copies::copy_run;
use alf_sides::{CTBS, plan_sides};
use alf_spec::{Filter, FilterInput};

// A plane over another of its size, by the run that is copied one by one.
fn copy_plane(plane: &[u16], output: &mut [u16])
    requires { length plane.now ≡ length output.old }
    ensures { output.new ≡ plane.now }
{
    copy_run(plane, 0, plane.len(), output, 0);
}

// The plane that a filter filters: a match, since the kinds are three and the planes two.
fn copy_input(filter: Filter, input: &FilterInput, output: &mut [u16])
    requires { length (plane_filtered filter input.now.luma input.now.chroma) ≡ length output.old }
    ensures { output.new ≡ plane_filtered filter input.now.luma input.now.chroma }
{
    match filter {
        Filter::Luma => copy_plane(input.luma, output),
        Filter::Chroma(_) => copy_plane(input.chroma, output),
        Filter::CrossComponent(_) => copy_plane(input.chroma, output),
    }
}

// The filtered plane of an accepted input. What depends on a CTB alone, its sides and whether it is filtered, is planned first.
pub fn filter_plane(filter: Filter, input: &FilterInput, output: &mut [u16])
    requires { fault (operation_of filter) (with_output (length output.old) input.now) ≡ 0 }
    ensures { output.new ≡ result_of (operation_of filter) (with_output (length output.old) input.now) }
{
    let layout = &input.layout;
    let grid = grid(layout.picture);
    let mut sides: [u16; CTBS] = [0; CTBS];
    plan_sides(layout, grid, &mut sides);
    let mut marks: [u8; CTBS] = [0; CTBS];
    mark_listed(filter, input, &mut marks);
    let orders = tap_orders();
    copy_input(filter, input, output);
    filter_marked(filter, input, grid, &orders, &sides, &marks, output);
}
