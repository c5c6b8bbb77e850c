// Single entries of the tables.
ghost use Rattle.std.specs.Prelude.{◌≡◌, ◌+◌, ◌*◌, ◌≤◌, ◌<◌, length, get_or};
ghost use Rattle.alf_params.specs.Tables.{slice_number, ctb_number};

use alf_spec::{FilterInput, Layout};

// Number n of the eight of the CTB at address k.
pub(crate) fn ctb_number(input: &FilterInput, k: usize, n: usize) -> u8
    requires { (8 * k + 8 ≤ length input.now.ctb_params) × (n < 8) }
    ensures { result ≡ ctb_number input.now.ctb_params k n }
{
    let numbers = input.ctb_params;
    numbers[8 * k + n]
}

// The slice of the CTB at address k, which the layout alone says.
fn slice_at(layout: &Layout, k: usize) -> u8
    requires { k < length layout.now.slice_map }
    ensures { result ≡ get_or layout.now.slice_map k 0 }
{
    layout.slice_map[k]
}

// Number n of the eleven of the slice of the CTB at address k.
pub(crate) fn slice_number(input: &FilterInput, k: usize, n: usize) -> u8
    requires { (k < length input.now.layout.slice_map) × (11 * get_or input.now.layout.slice_map k 0 + 11 ≤ length input.now.slice_params)
        × (n < 11) }
    ensures { result ≡ slice_number input.now.layout.slice_map input.now.slice_params k n }
{
    let slice = slice_at(&input.layout, k) as usize;
    let numbers = input.slice_params;
    numbers[11 * slice + n]
}
