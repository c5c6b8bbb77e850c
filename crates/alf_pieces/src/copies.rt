// The copy of a piece with its margin: 3 samples more on each side, so that kernels read every neighbour without clamping.
ghost use Rattle.std.specs.Prelude.{◌≡◌, ◌+◌, ◌-◌, ◌*◌, ◌^◌, ◌≤◌, ◌<◌, length};
ghost use Rattle.alf_spec.specs.Lists.{painted};
ghost use Rattle.alf_lists.specs.Regions.{between};
ghost use Rattle.alf_pieces.specs.Pieces.{PieceIn};
ghost use Rattle.alf_pieces.specs.Copies.{held as held_in, extent as extent_of, copy_length, row_lowest, row_limit, row_range};
ghost use Rattle.alf_pieces.specs.Copies.{copy_at, run_at, row_at, RowRoom};

use crate::pieces::Piece;
use alf_spec::Sides;

// Position p, held to those from `lowest` to `limit`.
fn held(lowest: usize, limit: usize, p: usize) -> usize
    requires { lowest < limit }
    ensures { result ≡ held_in lowest limit p }
{
    p.clamp(lowest, limit - 1)
}

// The samples of a piece along its axis. `u32 as usize` stays a cast here and elsewhere: there is no From, as in Rust.
pub fn extent(piece: Piece) -> usize
    requires { piece.start ≤ piece.end }
    ensures { result ≡ extent_of piece }
{
    (piece.end - piece.start) as usize
}

// The position that stands at place i of the copy of a piece, before it is held: the margin begins 3 samples before the piece.
fn position(start: usize, i: usize) -> usize
    requires { start + i < 2 ^ 63 }
    ensures { result ≡ start + i - 3 }
{
    (start + i).saturating_sub(3)
}

// The first column that is read in the plane's row v.
#[tactic(auto, unfolding(crate::specs::Copies::row_lowest))]
fn row_lowest(columns: Piece, rows: Piece, sides: Sides, v: usize) -> usize
    ensures { result ≡ row_lowest columns rows sides v }
{
    if sides.upper_left & (v < rows.start as usize) {
        columns.start as usize
    } else {
        columns.lowest as usize
    }
}

// The first column that is not read any more in the plane's row v.
#[tactic(auto, unfolding(crate::specs::Copies::row_limit))]
fn row_limit(columns: Piece, rows: Piece, sides: Sides, v: usize) -> usize
    ensures { result ≡ row_limit columns rows sides v }
{
    if sides.lower_right & (rows.end as usize <= v) {
        columns.end as usize
    } else {
        columns.limit as usize
    }
}

// The index, in a plane of so many columns, of the sample at column x and row y.
pub fn plane_index(width: u32, y: u32, x: u32) -> usize
    requires { (width ≤ 4096) × (y ≤ 4096) }
    ensures { result ≡ y * width + x }
{
    y as usize * width as usize + x as usize
}

// n samples from `from` on, to `at`. One by one: std's `copy_from_slice` is made of `memmove`, which a program in C would have to bring
// along.
pub fn copy_run(plane: &[u16], from: usize, n: usize, copy: &mut [u16], at: usize)
    requires { (from + n ≤ length plane.now) × (at + n ≤ length copy.old) }
    ensures { copy.new ≡ painted copy.old (between at n) (run_at plane.now from at) }
{
    for i in 0..n {
        copy[at + i] = plane[from + i];
    }
}

// What a row of the copy holds: the plane's row that begins at index `row`, from 3 columns before column `start` on, where columns are held
// to those from `lowest` to `limit`.
#[derive(Clone, Copy)]
pub struct RowRange {
    pub row: usize,
    pub start: usize,
    pub lowest: usize,
    pub limit: usize,
}

// The margin on one side of a row of the copy: the 3 samples from its place i on. The row begins at `at`.
fn copy_side(plane: &[u16], r: RowRange, copy: &mut [u16], at: usize, i: usize)
    requires { (r.lowest < r.limit) × (r.row + r.limit ≤ length plane.now) × (r.start ≤ r.limit)
        × (at + i + 3 ≤ length copy.old) }
    ensures { copy.new ≡ painted copy.old (between (at + i) 3) (row_at plane.now r at) }
{
    for k in 0..3 {
        let column = held(r.lowest, r.limit, position(r.start, i + k));
        copy[at + i + k] = plane[r.row + column];
    }
}

// A row of the copy: the margin, n samples, the margin.
fn copy_row(plane: &[u16], r: RowRange, n: usize, copy: &mut [u16], at: usize)
    requires { (RowRoom r n (length plane.now)) × (at + (n + 6) ≤ length copy.old) }
    ensures { copy.new ≡ painted copy.old (between at (n + 6)) (row_at plane.now r at) }
{
    copy_side(plane, r, copy, at, 0);
    copy_run(plane, r.row + r.start, n, copy, at + 3);
    copy_side(plane, r, copy, at, n + 3);
}

// The plane's row that stands in row j of the copy. A corner moves columns alone: the row past it stays.
fn row_of(rows: Piece, j: usize) -> usize
    requires { (rows.lowest ≤ rows.start) × (rows.start < rows.limit) × (rows.start + j < 2 ^ 63) }
    ensures { result ≡ held_in rows.lowest rows.limit (rows.start + j - 3) }
{
    held(
        rows.lowest as usize,
        rows.limit as usize,
        position(rows.start as usize, j),
    )
}

// What row j of the copy of a piece holds. Past a corner it has its own range of columns.
#[tactic(auto, unfolding(crate::specs::Copies::copy_row, crate::specs::Copies::row_range))]
fn row_range(width: usize, columns: Piece, rows: Piece, sides: Sides, j: usize) -> RowRange
    requires { (rows.lowest ≤ rows.start) × (rows.start < rows.limit) × (rows.start + j < 2 ^ 63)
        × (rows.limit * width < 2 ^ 63) }
    ensures { result ≡ row_range columns rows sides width j }
{
    let v = row_of(rows, j);
    RowRange {
        row: v * width,
        start: columns.start as usize,
        lowest: row_lowest(columns, rows, sides, v),
        limit: row_limit(columns, rows, sides, v),
    }
}

// The copy of a piece of a plane of so many columns; the sides are its CTB's. `copy-reads` says that it holds the samples at padded
// positions.
pub fn copy_piece(
    plane: &[u16],
    width: usize,
    columns: Piece,
    rows: Piece,
    sides: Sides,
    copy: &mut [u16],
)
    requires { (PieceIn width columns) × (rows.lowest ≤ rows.start) × (rows.start < rows.end) × (rows.end ≤ rows.limit)
        × (rows.limit * width ≤ length plane.now) × (copy_length columns rows ≤ length copy.old) }
    ensures { copy.new ≡ painted copy.old (between 0 (copy_length columns rows))
        (copy_at columns rows sides plane.now width) }
{
    let n = extent(columns);
    for j in 0..extent(rows) + 6 {
        let range = row_range(width, columns, rows, sides, j);
        copy_row(plane, range, n, copy, j * (n + 6));
    }
}
