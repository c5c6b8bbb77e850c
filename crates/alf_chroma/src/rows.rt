// How far above and below its row a chroma sample's taps read, and the shift of their sum: by the row's distance from the bottom of its
// CTB.
ghost use Rattle.std.specs.Prelude.{◌≡◌, ◌-◌, ◌*◌, ◌/◌, ◌%◌, ◌≤◌, ◌<◌};
ghost use Rattle.alf_spec.specs.Chroma.{chroma_rows};
ghost use Rattle.alf_chroma.specs.Pieces.{chroma_rows_of};

use alf_boundary::clips::line_rule;
use alf_spec::ChromaRows;

// Table 46: at the line the taps stay in their own row, next to it they reach one row.
#[tactic(auto, unfolding(alf_spec::specs::Chroma::chroma_rows))]
fn chroma_rows(line: bool, distance: u32) -> ChromaRows
    ensures { result ≡ chroma_rows line distance }
{
    let (y1, y2, shift) = match (line, distance) {
        (true, 2 | 3) => (0, 0, 10),
        (true, 1 | 4) => (1, 1, 7),
        _ => (1, 2, 7),
    };
    ChromaRows { y1, y2, shift }
}

// How far the plane's row y lies from the bottom of its CTB, in the plane's own rows.
fn bottom_distance(ctb: u32, ratio: u32, y: u32) -> u32
    requires { (0 < ctb) × (ctb ≤ 128) × (0 < ratio) × (ratio ≤ 2) × (y ≤ 4096) }
    ensures { result ≡ ctb / ratio - y * ratio % ctb / ratio }
{
    ctb / ratio - y * ratio % ctb / ratio
}

// Table 46 at the plane's row y.
pub(crate) fn rows_at(height: u32, ctb: u32, ratio: u32, y: u32) -> ChromaRows
    requires { (4 ≤ ctb) × (ctb ≤ 128) × (0 < ratio) × (ratio ≤ 2) × (y ≤ 4096) }
    ensures { result ≡ chroma_rows_of height ctb ratio y }
{
    chroma_rows(
        line_rule(height, ctb, y * ratio),
        bottom_distance(ctb, ratio, y),
    )
}
