// How far the taps of a row of luma samples reach, and their shift.
ghost use Rattle.std.specs.Prelude.{◌≡◌};
ghost use Rattle.alf_spec.specs.Luma.{luma_rows};

use alf_spec::LumaRows;

// Table 45, by whether the line rule is on and by the distance of a row from the CTB's bottom.
#[tactic(auto, unfolding(alf_spec::specs::Luma::luma_rows))]
pub(crate) fn luma_rows(line: bool, distance: u32) -> LumaRows
    ensures { result ≡ luma_rows line distance }
{
    let (y1, y2, y3, shift) = match (line, distance) {
        (true, 4 | 5) => (0, 0, 0, 10),
        (true, 3 | 6) => (1, 1, 1, 7),
        (true, 2 | 7) => (1, 2, 2, 7),
        _ => (1, 2, 3, 7),
    };
    LumaRows { y1, y2, y3, shift }
}
