// The clip positions of a position along an axis of the picture, and their causes: the line-buffer boundary, a virtual boundary, or why
// filtering across the side of its CTB is disabled.
ghost use Rattle.std.specs.Prelude.{◌≡◌, List, ℕ, ◌+◌, ◌-◌, ◌*◌, ◌/◌, ◌≤◌, ◌<◌};
ghost use Rattle.std.specs.List.{find};
ghost use Rattle.alf_spec.specs.Geometry.{Axis, line_rule, axis_of};
ghost use Rattle.alf_spec.specs.Boundary.{only, ◌or_else◌, near, line_clip, virtual_clip, side_clip, clip, cause_of};
ghost use Rattle.alf_boundary.specs.Clips.{clip_of, side_of, column_axis, row_axis, axis_along, sides_along, Bounded, InCtb};

use crate::causes::disables;
use alf_spec::{Clip, ClipCause, Grid, Picture, Sides};

// One axis of the picture through one of its CTBs. Columns and rows have an axis each, so that every rule along an axis is one function.
// The axis's virtual boundaries are passed beside it: with a reference in it, an axis could not be said to equal its definition. What a
// rule asks of an axis (InCtb) is no invariant of it, since the two functions that make one promise it for every picture.
#[derive(Clone, Copy)]
pub struct CtbAxis {
    // the picture's samples along it, and a CTB's
    pub size: u32,
    pub ctb: u32,
    // how far above the CTB's bottom the line-buffer boundary lies, in luma rows: 0 where there is none, as along columns
    pub line: u32,
    // the causes at the CTB's two sides: left and right, or top and bottom
    pub before: ClipCause,
    pub after: ClipCause,
    // the CTB's column or row in the grid
    pub place: u32,
}

// The axis of columns through a CTB of the CTB column q. It and the axis of rows differ in the fields that they read, so they are two.
pub fn column_axis(picture: Picture, grid: Grid, sides: Sides, q: u32) -> CtbAxis
    ensures { result ≡ column_axis picture grid sides q }
{
    CtbAxis {
        size: picture.width,
        ctb: grid.ctb,
        line: 0,
        before: sides.left,
        after: sides.right,
        place: q,
    }
}

// The axis of rows through a CTB of the CTB row q, with the line so many luma rows above the CTB's bottom.
pub fn row_axis(picture: Picture, grid: Grid, sides: Sides, line: u32, q: u32) -> CtbAxis
    ensures { result ≡ row_axis picture grid sides line q }
{
    CtbAxis {
        size: picture.height,
        ctb: grid.ctb,
        line: line,
        before: sides.top,
        after: sides.bottom,
        place: q,
    }
}

// The clip position with its cause, where the test passes: the one place where a test and what it guards stay side by side.
fn only_if(test: bool, cause: ClipCause, at: u32) -> Option<Clip>
    ensures { clip_of result ≡ only test cause at }
{
    test.then_some(Clip {
        cause: cause,
        position: at,
    })
}

// The cause of the clip position; where there is none, the side is open.
pub fn cause_of(found: Option<Clip>) -> ClipCause
    ensures { result ≡ cause_of (clip_of found) }
{
    found.map_or(ClipCause::Open, |clip| clip.cause)
}

// Whether a virtual boundary is near x on that side: 0 to 2 before x or at it, or 1 to 4 after x. A side stays a bool here and below, true
// for the one after x: the definitions name the sides (side_of), and an enum in code would say it a third time.
fn is_near(after: bool, x: u32, boundary: u32) -> bool
    ensures { result ≡ near (side_of after) x boundary }
{
    if after {
        x < boundary && boundary - x <= 4
    } else {
        boundary <= x && x - boundary <= 2
    }
}

// The first virtual boundary that is near x on that side.
fn near_boundary(after: bool, boundaries: &[u16], x: u32) -> Option<u32>
    ensures { result ≡ find (near (side_of after) x) boundaries.now }
{
    boundaries
        .iter()
        .map(|b| *b as u32)
        .find(|b| is_near(after, x, *b))
}

// The same boundary as a clip position with its cause.
pub fn virtual_clip(after: bool, boundaries: &[u16], x: u32) -> Option<Clip>
    ensures { (size ctb line ratio : ℕ)
        → clip_of result ≡ virtual_clip (axis_of size ctb boundaries.now line ratio) x (side_of after) }
{
    near_boundary(after, boundaries, x).map(|boundary| Clip {
        cause: ClipCause::VirtualBoundary,
        position: boundary,
    })
}

// Where the axis's CTB begins.
pub fn ctb_start(axis: CtbAxis) -> u32
    requires { axis.place * axis.ctb ≤ 65535 }
    ensures { result ≡ axis.place * axis.ctb }
{
    axis.place * axis.ctb
}

// Whether the line rule is on in y's CTB: where all of the CTB's rows lie in the picture.
pub fn line_rule(size: u32, ctb: u32, y: u32) -> bool
    requires { Bounded ctb y }
    ensures { (a : Axis) → a.size ≡ size → a.ctb ≡ ctb → result ≡ line_rule a y }
{
    y / ctb * ctb + ctb <= size
}

// The line-buffer boundary: before x where x lies at or below it, and after x where x lies 1 to 4 rows above it.
fn line_clip(axis: CtbAxis, after: bool, x: u32) -> Option<Clip>
    requires { InCtb axis x }
    ensures { (boundaries : List ℕ) (ratio : ℕ) → clip_of result ≡ line_clip (axis_along axis boundaries ratio) x (side_of after) }
{
    let start = ctb_start(axis);
    let at = start + (axis.ctb - axis.line);
    if after {
        only_if(
            (0 < axis.line) & ((x < at) & (at <= x + 4)),
            ClipCause::LineBufferBoundary,
            at,
        )
    } else {
        only_if(
            (0 < axis.line) & (axis.ctb - axis.line <= x - start),
            ClipCause::LineBufferBoundary,
            at,
        )
    }
}

// The CTB's side where filtering across it is disabled: before x where x lies at most 2 behind it, after x where x lies at most 4 before
// it.
fn side_clip(axis: CtbAxis, after: bool, x: u32) -> Option<Clip>
    requires { InCtb axis x }
    ensures { (boundaries : List ℕ) (ratio : ℕ)
        → clip_of result ≡ side_clip (axis_along axis boundaries ratio) x (sides_along axis) (side_of after) }
{
    let start = ctb_start(axis);
    if after {
        let side = axis.after;
        only_if(
            (axis.ctb - (x - start) < 5) & disables(side),
            side,
            start + axis.ctb,
        )
    } else {
        let side = axis.before;
        only_if((x - start < 3) & disables(side), side, start)
    }
}

// What the rules find on one side of x, a position of the axis's CTB. Before x the line-buffer boundary comes first, then a virtual
// boundary, then the CTB's side; after x a virtual boundary comes before the line.
pub fn find_clip(axis: CtbAxis, boundaries: &[u16], after: bool, x: u32) -> Option<Clip>
    requires { InCtb axis x }
    ensures { (ratio : ℕ)
        → clip_of result ≡ clip (axis_along axis boundaries.now ratio) x (sides_along axis) (side_of after) }
{
    let by_line = line_clip(axis, after, x);
    let by_boundary = virtual_clip(after, boundaries, x);
    let by_side = side_clip(axis, after, x);
    if after {
        by_boundary.or(by_line).or(by_side)
    } else {
        by_line.or(by_boundary).or(by_side)
    }
}
