// The numbers of the filter of the CTB at address k, taken from the tables.
ghost use Rattle.std.specs.Prelude.{◌≡◌, ◌+◌, ◌*◌, ◌^◌, ◌≤◌, ◌<◌, pos, length, get_or};
ghost use Rattle.alf_lists.specs.Regions.{between};
ghost use Rattle.alf_lists.specs.Filled.{Filled};
ghost use Rattle.alf_params.specs.Tables.{ctb_number, SliceTables, FixedTables};
ghost use Rattle.alf_params.specs.Numbers.{copied_from, RunInAps, FromAps, luma_run, chroma_run, cross_run, fixed_number};

use crate::entries::{ctb_number, slice_number};
use alf_lists::fill;
use alf_math::clipping::top_level;
use alf_spec::FilterInput;

// An APS has 752 numbers: 600 for luma, then the chroma alternatives, and from 696 on the cross-component filters.
const APS: usize = 752;

const LUMA: usize = 600;

const CROSS: usize = 696;

// The first sets are fixed: a filter for each of 25 classes.
pub const FIXED_SETS: usize = 16;

const CLASSES: usize = 25;

// Number k of a table.
fn number_at(table: &[i16], k: usize) -> i16
    requires { k < length table.now }
    ensures { result ≡ get_or table.now k (pos 0) }
{
    table[k]
}

// n numbers of a table from index `from` on, put to the indices from `to` on. One by one, as `copy_run` does it.
fn copy_numbers(table: &[i16], from: usize, n: usize, filters: &mut [i16], to: usize)
    requires { (from + n ≤ length table.now) × (to + n ≤ length filters.old) }
    ensures { Filled (pos 0) filters.old (between to n) (copied_from table.now from to)
        filters.new }
{
    for j in 0..n {
        filters[to + j] = number_at(table, from + j);
    }
}

// 1 << BitDepth: the clip of the fixed filters, (1456).
fn fixed_clip(depth: u32) -> i16
    requires { depth ≤ 12 }
    ensures { result ≡ pos (2 ^ depth) }
{
    (top_level(depth) + 1) as i16
}

// The filters of a fixed set, which have coefficients alone.
pub fn load_fixed(depth: u32, set: usize, input: &FilterInput, filters: &mut [i16])
    requires { (set < 16) × (FixedTables depth input.now.fixed_filters input.now.fixed_map) × (length filters.old ≡ 600) }
    ensures { Filled (pos 0) filters.old (between 0 600)
        (fixed_number depth set input.now.fixed_filters input.now.fixed_map) filters.new }
{
    let clip = fixed_clip(depth);
    let fixed_filters = input.fixed_filters;
    let fixed_map = input.fixed_map;
    for class in 0..CLASSES {
        let filter = fixed_map[CLASSES * set + class] as usize;
        copy_numbers(fixed_filters, 12 * filter, 12, filters, 24 * class);
        fill(filters, 24 * class + 12, 12, clip);
    }
}

// A run of an APS's numbers. Of the eleven numbers of a slice, number `name` says which APS.
#[derive(Clone, Copy)]
pub struct ApsRun {
    pub name: usize,
    pub first: usize,
    pub count: usize,
}

// The run's numbers, put to the front. The slice is that of the CTB at address k.
pub fn load_from_aps(run: ApsRun, k: usize, input: &FilterInput, filters: &mut [i16])
    requires { (SliceTables input.now.layout.slice_map input.now.slice_params input.now.bank k) × (RunInAps run)
        × (length filters.old ≡ 600) }
    ensures { FromAps input.now.layout.slice_map input.now.slice_params input.now.bank k run
        filters.old filters.new }
{
    let aps = slice_number(input, k, run.name) as usize;
    copy_numbers(input.bank, APS * aps + run.first, run.count, filters, 0);
}

// Which set of 25 luma filters a CTB has: the fixed sets, and then one of each of the slice's luma APSs.
pub fn luma_set(k: usize, input: &FilterInput) -> usize
    requires { 8 * k + 8 ≤ length input.now.ctb_params }
    ensures { result ≡ ctb_number input.now.ctb_params k 3 }
{
    ctb_number(input, k, 3) as usize
}

// Where a set that is not fixed stands: 12 coefficients and 12 clips for each class.
pub fn luma_run(set: usize) -> ApsRun
    requires { (16 ≤ set) × (set ≤ 22) }
    ensures { (result ≡ luma_run set) × (RunInAps result) }
{
    ApsRun {
        name: 1 + (set - FIXED_SETS),
        first: 0,
        count: LUMA,
    }
}

// Where the alternative of a chroma component stands: 6 coefficients and 6 clips. The runs of the three filters stay three functions, since
// each is a formula of its own.
pub fn chroma_run(component: u8, k: usize, input: &FilterInput) -> ApsRun
    requires { (component ≤ 1) × (8 * k + 8 ≤ length input.now.ctb_params) × (ctb_number input.now.ctb_params k (4 + component) ≤ 7) }
    ensures { (result ≡ chroma_run (ctb_number input.now.ctb_params k (4 + component))) × (RunInAps result) }
{
    let alternative = ctb_number(input, k, 4 + component as usize) as usize;
    ApsRun {
        name: 8,
        first: LUMA + 12 * alternative,
        count: 12,
    }
}

// Where the cross-component filter of a chroma component stands, which has 7 coefficients alone. Index 1 is the first filter: 0 is off.
pub fn cross_run(component: u8, k: usize, input: &FilterInput) -> ApsRun
    requires { (component ≤ 1) × (8 * k + 8 ≤ length input.now.ctb_params) × (0 < ctb_number input.now.ctb_params k (6 + component))
        × (ctb_number input.now.ctb_params k (6 + component) ≤ 4) }
    ensures { (result ≡ cross_run component (ctb_number input.now.ctb_params k (6 + component))) × (RunInAps result) }
{
    let component = component as usize;
    let index = ctb_number(input, k, 6 + component) as usize;
    ApsRun {
        name: 9 + component,
        first: CROSS + 28 * component + 7 * (index - 1),
        count: 7,
    }
}
