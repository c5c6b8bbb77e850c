// Cause 10: slice parameters and CTB parameters.
ghost use Rattle.std.specs.Prelude.{◌≡◌, ◌+◌, ◌*◌, ◌≤◌, ◌<◌, length, get_or};
ghost use Rattle.alf_spec.specs.Lists.{all_below};
ghost use Rattle.alf_spec.specs.Geometry.{total_ctbs, ctb_of};
ghost use Rattle.alf_spec.specs.Parameters.{luma_aps_count};
ghost use Rattle.alf_spec.specs.Faults.{slice_params_valid, ctb_ranges_valid, ctb_chroma_zero, ctb_params_valid_at, parameters_valid};
ghost use Rattle.alf_validate_tables.specs.Tables.{ParametersFit};

use alf_spec::FilterInput;
use alf_validate_layout::entries::bytes_below;

// Whether each slice's APS count and ids are from 0 to 7.
#[tactic(auto, using(alf_spec::proofs::Scans::every_up_to), unfolding(alf_spec::specs::Faults::slice_params_valid))]
fn slice_params_valid(input: &FilterInput) -> bool
    ensures { result ≡ slice_params_valid input.now }
{
    bytes_below(input.slice_params, 8)
}

// How many luma APSs the slice of the CTB at address k has.
#[tactic(auto, using(crate::proofs::CtbParameters::of_slice))]
fn luma_aps_count(input: &FilterInput, k: usize) -> u8
    requires in_map { k < length input.now.layout.slice_map }
    requires in_table { 11 * get_or input.now.layout.slice_map k 0 < length input.now.slice_params }
    ensures { result ≡ luma_aps_count input.now (ctb_of input.now.layout k) }
{
    let map = input.layout.slice_map;
    let params = input.slice_params;
    params[11 * (map[k] as usize)]
}

// Whether the flags, luma set, alternatives and cross-component indices of the CTB at address k are in their ranges, where its slice has so
// many luma APSs.
#[tactic(auto, using(crate::proofs::CtbParameters::at_address), unfolding(alf_spec::specs::Faults::ctb_ranges_valid))]
fn ranges_valid(count: u8, input: &FilterInput, k: usize) -> bool
    requires room { 8 * k + 8 ≤ length input.now.ctb_params }
    requires counted { luma_aps_count input.now (ctb_of input.now.layout k) ≡ count }
    ensures { result ≡ ctb_ranges_valid input.now (ctb_of input.now.layout k) }
{
    let params = input.ctb_params;
    let at = 8 * k;
    (params[at] <= 1)
        & ((params[at + 1] <= 1)
            & ((params[at + 2] <= 1)
                & ((params[at + 3] as u32 <= 15 + count as u32)
                    & ((params[at + 4] <= 7)
                        & ((params[at + 5] <= 7)
                            & ((params[at + 6] <= 4) & (params[at + 7] <= 4)))))))
}

// Whether the chroma flags, alternatives and cross-component indices of the CTB at address k are all 0.
#[tactic(auto, using(crate::proofs::CtbParameters::at_address), unfolding(alf_spec::specs::Faults::ctb_chroma_zero))]
fn chroma_zero(input: &FilterInput, k: usize) -> bool
    requires { 8 * k + 8 ≤ length input.now.ctb_params }
    ensures { result ≡ ctb_chroma_zero input.now (ctb_of input.now.layout k) }
{
    let params = input.ctb_params;
    let at = 8 * k;
    (params[at + 1] == 0)
        & ((params[at + 2] == 0)
            & ((params[at + 4] == 0)
                & ((params[at + 5] == 0) & ((params[at + 6] == 0) & (params[at + 7] == 0)))))
}

// Whether the parameters of the CTB at address k are valid.
#[tactic(auto, using(crate::proofs::CtbParameters::slice_params_fit), unfolding(alf_spec::specs::Faults::ctb_params_valid_at))]
fn ctb_params_valid_at(input: &FilterInput, k: usize) -> bool
    requires fit { ParametersFit input.now }
    requires in_map { k < length input.now.layout.slice_map }
    ensures { result ≡ ctb_params_valid_at input.now k }
{
    let count = luma_aps_count(input, k);
    let ranges = ranges_valid(count, input, k);
    if input.layout.picture.chroma_format == 0 {
        ranges & chroma_zero(input, k)
    } else {
        ranges
    }
}

// Whether the parameters of so many CTBs, by address from 0, are valid. The fold goes on past a CTB whose are not.
fn ctb_params_valid(input: &FilterInput, count: usize) -> bool
    requires fit { ParametersFit input.now }
    requires in_map { count ≤ length input.now.layout.slice_map }
    ensures { result ≡ all_below count (ctb_params_valid_at input.now) }
{
    (0..count).fold(true, |good, k| good & ctb_params_valid_at(input, k))
}

// Whether all slice parameters and CTB parameters are valid.
#[tactic(auto, unfolding(alf_spec::specs::Faults::parameters_valid))]
pub fn parameters_valid(input: &FilterInput) -> bool
    requires fit { ParametersFit input.now }
    requires full { length input.now.layout.slice_map ≡ total_ctbs input.now.layout }
    ensures { result ≡ parameters_valid input.now }
{
    slice_params_valid(input) & ctb_params_valid(input, input.layout.slice_map.len())
}
