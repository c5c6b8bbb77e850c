// The class window of a block: a second difference of its samples, and the rows that count.
ghost use Rattle.std.specs.Prelude.{◌≡◌, ◌+◌, ◌*◌, ◌≤◌, ◌<◌};
ghost use Rattle.alf_spec.specs.Arithmetic.{distance};
ghost use Rattle.alf_spec.specs.Classes.{window_rows};

use alf_spec::WindowRows;

// Abs( 2c − a − b ) of (1472) to (1475). At bit depth 12 it is at most 8,190, so 16 bits hold it, and a vector of 128 bits eight of it.
#[tactic(auto, unfolding(alf_spec::specs::Arithmetic::distance))]
pub fn second_difference(c: u16, a: u16, b: u16) -> u16
    requires { (c < 4096) × (a < 4096) × (b < 4096) }
    ensures { (result ≡ distance (2 * c) (a + b)) × (result ≤ 8190) }
{
    (2 * c).abs_diff(a + b)
}

// The rows of the window of a block at row y of its CTB, and the activity factor: minY, maxY and ac.
#[tactic(auto, unfolding(alf_spec::specs::Classes::window_rows))]
pub fn window_rows(line: bool, ctb: u32, y: u32) -> WindowRows
    requires { 8 ≤ ctb }
    ensures { result ≡ window_rows line ctb y }
{
    if line & (y == ctb - 8) {
        WindowRows {
            first: 1,
            count: 6,
            factor: 3,
        }
    } else if line & (y == ctb - 4) {
        WindowRows {
            first: 3,
            count: 6,
            factor: 3,
        }
    } else {
        WindowRows {
            first: 1,
            count: 8,
            factor: 2,
        }
    }
}
