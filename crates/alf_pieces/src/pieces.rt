// The pieces of a CTB along an axis. A piece goes from one clip position to the next, and all reads from its samples are clamped to one
// range, which is found once: that of its first and of its last sample.
ghost use Rattle.std.specs.Prelude.{◌≡◌, ◌*◌, ◌≤◌, ◌<◌};
ghost use Rattle.std.proofs.Math.Option.{get_or};
ghost use Rattle.alf_boundary.specs.Clips.{position_of, axis_along, sides_along};
ghost use Rattle.alf_pieces.specs.Pieces.{limit_along, BlockAt, piece_end, scaled as scaled_by};
ghost use Rattle.alf_pieces.specs.Walks.{Along, Walk, Turn};

use alf_boundary::clips::{CtbAxis, ctb_start, find_clip};
use alf_spec::Clip;

// A piece along an axis, in the plane's own samples.
#[derive(Clone, Copy)]
pub struct Piece {
    // its first sample, and the first past it
    pub start: u32,
    pub end: u32,
    // reads are clamped to these: the first sample that is read, and the first that is not read any more
    pub lowest: u32,
    pub limit: u32,
}

// The clip position, or what stands for it where there is none: where reads begin or end.
fn bound(found: Option<Clip>, otherwise: u32) -> u32
    ensures { result ≡ get_or (position_of found) otherwise }
{
    found.map_or(otherwise, |clip| clip.position)
}

// Where the axis's CTB ends in the picture: the last CTB may not be whole.
pub fn ctb_limit(axis: CtbAxis) -> u32
    requires { (axis.ctb ≤ 128) × (axis.place * axis.ctb ≤ 65535) }
    ensures { result ≡ limit_along axis }
{
    (ctb_start(axis) + axis.ctb).min(axis.size)
}

// Where the piece ends that begins at x: with the first block of 4 samples whose last one has a clip position after it. With the line 4
// rows above a CTB's bottom, or none, clip positions are multiples of 4, so that none stands within a block. A `for` that ends early, and no
// `find`: it says where the walk stands, which the proof goes by.
fn piece_end(axis: CtbAxis, boundaries: &[u16], x: u32) -> u32
    requires { BlockAt axis x }
    ensures { (x < result) × (result ≤ limit_along axis)
        × (result ≡ piece_end (axis_along axis boundaries.now 1) (sides_along axis) axis.place x) }
{
    let blocks = (ctb_limit(axis) - x) / 4;
    for k in 0..blocks {
        let end = x + 4 * (k + 1);
        if find_clip(axis, boundaries, true, end - 1).is_some() {
            return end;
        }
    }
    x + 4 * blocks
}

// The piece of the luma plane that begins at x, in a walk over the pieces of the axis's CTB.
pub fn piece_at(axis: CtbAxis, boundaries: &[u16], x: u32) -> Piece
    requires { (Along axis boundaries.now) × (Walk axis boundaries.now x) × (x < limit_along axis) }
    ensures { Turn axis boundaries.now x result }
{
    let end = piece_end(axis, boundaries, x);
    let lower = find_clip(axis, boundaries, false, x);
    let upper = find_clip(axis, boundaries, true, end - 1);
    Piece {
        start: x,
        end: end,
        lowest: bound(lower, 0),
        limit: bound(upper, axis.size),
    }
}

// A piece of the luma plane, in the samples of a plane with this ratio to luma: what bounds a piece is a multiple of 4 luma samples.
#[tactic(auto, unfolding(crate::specs::Pieces::scaled))]
pub fn scaled(piece: Piece, ratio: u32) -> Piece
    requires { 0 < ratio }
    ensures { result ≡ scaled_by ratio piece }
{
    Piece {
        start: piece.start / ratio,
        end: piece.end / ratio,
        lowest: piece.lowest / ratio,
        limit: piece.limit / ratio,
    }
}
