// Whether a CTB's flag or index is on, and the numbers of its filter, for each of the filters.
ghost use Rattle.std.specs.Prelude.{◌≡◌, ℕ, ◌+◌, ◌*◌, ◌≤◌, pos, length, get_or};
ghost use Rattle.alf_spec.specs.Input.{Input};
ghost use Rattle.alf_spec.specs.Geometry.{address};
ghost use Rattle.alf_spec.specs.declared.Ctb.{Ctb};
ghost use Rattle.alf_params.specs.Tables.{CtbTables, TablesGiven};
ghost use Rattle.alf_ctb.specs.Filters.{is_on, OwnFilter};
ghost use Rattle.alf_ctb.specs.FilterWork.{Numbers};
ghost use Rattle.alf_ctb.specs.Tables.{ComponentOf, FixedGiven, FixedSame, Switched};

use alf_params::{
    FIXED_SETS, chroma_on, chroma_run, cross_on, cross_run, load_fixed, load_from_aps, luma_on,
    luma_run, luma_set,
};
use alf_spec::{Filter, FilterInput};

// The flag or index of the CTB at address k.
pub fn is_on(filter: Filter, input: &FilterInput, k: usize) -> bool
    requires { (ComponentOf filter) × (8 * k + 8 ≤ length input.now.ctb_params) }
    ensures { (i : Input) (c : Ctb) → i.ctb_params ≡ input.now.ctb_params → address i.layout c ≡ k
        → result ≡ is_on filter i c }
{
    match filter {
        Filter::Luma => luma_on(input, k),
        Filter::Chroma(component) => chroma_on(input, component, k),
        Filter::CrossComponent(component) => cross_on(input, component, k),
    }
}

// The numbers of its filter.
pub fn load(filter: Filter, input: &FilterInput, k: usize, filters: &mut [i16])
    requires { let i = input.now in (ComponentOf filter)
        × (CtbTables i.layout.slice_map i.slice_params i.bank i.ctb_params k)
        × (FixedGiven filter i.layout.picture.bit_depth i.fixed_filters i.fixed_map) × (Switched filter i.ctb_params k)
        × (length filters.old ≡ 600)
        × ((j : ℕ) → get_or filters.old j (pos 0) ≡ pos 0) }
    ensures { let own = input.now in (Numbers filter filters.new) × ((i : Input) (c : Ctb)
        → TablesGiven i c own.layout.slice_map own.slice_params own.bank own.ctb_params k
        → FixedSame filter i own.layout.picture.bit_depth own.fixed_filters own.fixed_map
        → OwnFilter filter i c filters.new) }
{
    match filter {
        Filter::Luma => {
            let set = luma_set(k, input);
            if set < FIXED_SETS {
                let layout = &input.layout;
                let depth = layout.picture.bit_depth as u32;
                load_fixed(depth, set, input, filters);
            } else {
                load_from_aps(luma_run(set), k, input, filters);
            }
        }
        Filter::Chroma(component) => {
            let run = chroma_run(component, k, input);
            load_from_aps(run, k, input, filters);
        }
        Filter::CrossComponent(component) => {
            let run = cross_run(component, k, input);
            load_from_aps(run, k, input, filters);
        }
    }
}
