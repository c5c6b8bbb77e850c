// The CTB grid of a picture, how its chroma planes lie on it, and the place before another.
ghost use Rattle.std.specs.Prelude.{◌≡◌, true, pred, ◌+◌, ◌-◌, ◌/◌, ◌^◌, ◌≤◌, ◌<◌};
ghost use Rattle.alf_spec.specs.Geometry.{sub_width, sub_height};
ghost use Rattle.alf_spec.specs.Faults.{picture_size_valid, ctb_size_valid};
ghost use Rattle.alf_math.specs.Grids.{GridOf};

use alf_spec::{Grid, Picture};

// SubWidthC. It and SubHeightC stay two functions, as the standard has two.
#[tactic(auto, unfolding(alf_spec::specs::Geometry::sub_width))]
pub fn sub_width(picture: Picture) -> u32
    ensures { (result ≡ sub_width picture) × (0 < result) }
{
    match picture.chroma_format {
        1 | 2 => 2,
        _ => 1,
    }
}

// SubHeightC
#[tactic(auto, unfolding(alf_spec::specs::Geometry::sub_height))]
pub fn sub_height(picture: Picture) -> u32
    ensures { (result ≡ sub_height picture) × (0 < result) }
{
    match picture.chroma_format {
        1 => 2,
        _ => 1,
    }
}

// CtbSizeY
fn ctb_size(ctb_log2: u8) -> u32
    requires { (5 ≤ ctb_log2) × (ctb_log2 ≤ 7) }
    ensures { result ≡ 2 ^ ctb_log2 }
{
    1 << ctb_log2
}

// The place before n along an axis, or n itself at 0.
pub fn previous(n: u32) -> u32
    ensures { result ≡ pred n }
{
    n.saturating_sub(1)
}

// CtbSizeY, PicWidthInCtbsY and PicHeightInCtbsY
pub fn grid(picture: Picture) -> Grid
    requires { (picture_size_valid picture ≡ true) × (ctb_size_valid picture ≡ true) }
    ensures { GridOf picture result }
{
    let ctb = ctb_size(picture.ctb_log2);
    Grid {
        ctb: ctb,
        columns: picture.width.div_ceil(ctb),
        rows: picture.height.div_ceil(ctb),
    }
}
