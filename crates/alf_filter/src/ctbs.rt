// The CTBs of a picture, filtered: those that are marked. The sides of each are in a table, and so is its mark: neither tiles nor
// subpictures nor the list are asked here.
ghost use Rattle.std.specs.Prelude.{◌≡◌, ◌*◌, ◌/◌, ◌<◌, length};
ghost use Rattle.alf_spec.specs.Input.{Input};
ghost use Rattle.alf_taps.specs.Spread.{TapNumbers};
ghost use Rattle.alf_sides.specs.Planned.{SidesPlanned};
ghost use Rattle.alf_ctb.specs.Filters.{column_ratio, row_ratio};
ghost use Rattle.alf_ctb.specs.FilterWork.{FilterRooms};
ghost use Rattle.alf_filter.specs.FilterTables.{TablesAccepted, TablesIn};
ghost use Rattle.alf_filter.specs.FilteredCtbs.{is_marked, MarksOn, CtbFiltered, MarkedFiltered};

use alf_classify::AREA;
use alf_ctb::{Planes, filter_ctb, load, walk_line};
use alf_pieces::walks::CtbAxes;
use alf_sides::sides_at;
use alf_spec::{Filter, FilterInput, Grid};
use alf_taps::SPREAD;

// Whether the CTB at address k is marked.
fn is_marked(marks: &[u8], k: u32) -> bool
    requires { k < length marks.now }
    ensures { result ≡ is_marked marks.now k }
{
    marks[k as usize] == 1
}

// The CTB at address k, where it is marked.
fn filter_address(
    filter: Filter,
    input: &FilterInput,
    grid: Grid,
    orders: &[u8],
    sides: &[u16],
    marks: &[u8],
    k: u32,
    copy: &mut [u16],
    differences: &mut [u16],
    taps: &mut [i16],
    output: &mut [u16],
)
    requires { (TablesAccepted filter input.now grid orders.now) × (k < grid.columns * grid.rows) × (k < length sides.now)
        × (k < length marks.now) × (MarksOn filter input.now.ctb_params marks.now)
        × (FilterRooms filter input.now.layout.picture (length copy.old) (length differences.old) taps.old (length output.old)) }
    ensures { ((i : Input) → TablesIn filter i input.now → SidesPlanned i.layout sides.now
        → CtbFiltered filter i marks.now k output.old output.new) × (TapNumbers taps.new) }
{
    if !is_marked(marks, k) {
        return;
    }
    let own_sides = sides_at(sides, k);
    let mut filters: [i16; 600] = [0; 600];
    load(filter, input, k as usize, &mut filters);
    let axes = CtbAxes::through(&input.layout, grid, own_sides, walk_line(filter), k);
    filter_ctb(
        filter,
        &Planes::of(input),
        grid,
        own_sides,
        &axes,
        &filters,
        orders,
        copy,
        differences,
        taps,
        output,
    );
}

// All CTBs that are marked.
pub(crate) fn filter_marked(
    filter: Filter,
    input: &FilterInput,
    grid: Grid,
    orders: &[u8],
    sides: &[u16],
    marks: &[u8],
    output: &mut [u16],
)
    requires { let p = input.now.layout.picture in (TablesAccepted filter input.now grid orders.now)
        × (length sides.now ≡ 16384) × (length marks.now ≡ 16384) × (MarksOn filter input.now.ctb_params marks.now)
        × (length output.old ≡ (p.width / column_ratio filter p) * (p.height / row_ratio filter p)) }
    ensures { (i : Input) → TablesIn filter i input.now → SidesPlanned i.layout sides.now
        → MarkedFiltered filter i marks.now output.old output.new }
{
    let mut copy: [u16; AREA] = [0; AREA];
    let mut differences: [u16; 4 * AREA] = [0; 4 * AREA];
    let mut taps: [i16; SPREAD] = [0; SPREAD];
    for k in 0..grid.columns * grid.rows {
        filter_address(
            filter,
            input,
            grid,
            orders,
            sides,
            marks,
            k,
            &mut copy,
            &mut differences,
            &mut taps,
            output,
        );
    }
}
