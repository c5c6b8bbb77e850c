// The filtered samples of a piece: its copy and its classes once, the filters of a row of blocks once, then row by row.
ghost use Rattle.std.specs.Prelude.{◌≡◌, ℕ, ◌+◌, ◌-◌, ◌*◌, ◌/◌, ◌≤◌, ◌<◌, length, get_or};
ghost use Rattle.alf_spec.specs.Lists.{painted};
ghost use Rattle.alf_spec.specs.Input.{Input};
ghost use Rattle.alf_spec.specs.Geometry.{luma_plane};
ghost use Rattle.alf_spec.specs.Boundary.{column_side, row_side};
ghost use Rattle.alf_spec.specs.Luma.{luma_sample};
ghost use Rattle.alf_spec.specs.Process.{at_index};
ghost use Rattle.alf_spec.specs.declared.Ctb.{Ctb};
ghost use Rattle.alf_math.specs.Grids.{AcceptedPicture};
ghost use Rattle.alf_lists.specs.Regions.{between, in_rect};
ghost use Rattle.alf_pieces.specs.Pieces.{PieceOf, BlockPiece, CtbOf};
ghost use Rattle.alf_pieces.specs.Copies.{extent, pitch};
ghost use Rattle.alf_taps.specs.Spread.{TapNumbers};
ghost use Rattle.alf_luma.specs.Kernel.{row_from};
ghost use Rattle.alf_params.specs.Filters.{LumaFilters};
ghost use Rattle.alf_luma.specs.Samples.{luma_rows_at_row, starts_of, spread_sample_at, MapOf, luma_copy_sample_at};
ghost use Rattle.alf_luma.specs.Samples.{BlockRowInput, PieceCopy, LumaPieceInput};

use crate::kernel::{Starts, luma_row};
use crate::rows::luma_rows;
use crate::spread::spread;
use alf_boundary::clips::line_rule;
use alf_classify::{AREA, piece_classes};
use alf_pieces::copies::{copy_piece, extent, plane_index};
use alf_pieces::luma_pieces::LumaPiece;
use alf_pieces::pieces::Piece;
use alf_spec::{Grid, LumaRows, Picture, Sides};
use alf_taps::{SPREAD, TapSource};

// A piece has at most 32 by 32 blocks.
const BLOCKS: usize = 32;

// The rows of the copy that the taps of the piece's row t read.
fn starts(pitch: usize, t: usize, r: LumaRows) -> Starts
    requires { (pitch ≤ 134) × (t ≤ 128) × (r.y1 ≤ 3) × (r.y2 ≤ 3) × (r.y3 ≤ 3) }
    ensures { result ≡ starts_of pitch t r }
{
    let here = t + 3;
    let y1 = r.y1 as usize;
    let y2 = r.y2 as usize;
    let y3 = r.y3 as usize;
    Starts {
        above3: (here - y3) * pitch,
        above2: (here - y2) * pitch,
        above1: (here - y1) * pitch,
        here: here * pitch,
        below1: (here + y1) * pitch,
        below2: (here + y2) * pitch,
        below3: (here + y3) * pitch,
    }
}

// The piece's row t.
fn filter_row(piece: LumaPiece, t: usize, copy: &[u16], taps: &[i16], output: &mut [u16])
    requires { (t < extent piece.rows) × (PieceCopy piece.columns piece.rows copy.now) × (TapNumbers taps.now)
        × (length output.old ≡ piece.picture.width * piece.picture.height) }
    ensures { let y = piece.rows.start + t in let r = luma_rows_at_row piece.picture.height piece.grid.ctb y in
        let from = y * piece.picture.width + piece.columns.start in
        output.new ≡ painted output.old (between from (extent piece.columns))
        (row_from piece.picture.bit_depth r.shift copy.now taps.now (starts_of (pitch piece.columns) t r) from) }
{
    let picture = piece.picture;
    let ctb = piece.grid.ctb;
    let n = extent(piece.columns);
    let y = piece.rows.start + t as u32;
    let line = line_rule(picture.height, ctb, y);
    let r = luma_rows(line, ctb - y % ctb);
    let source = TapSource {
        copy,
        starts: starts(n + 6, t, r),
        taps,
        shift: r.shift,
        depth: picture.bit_depth as u32,
    };
    luma_row(
        &source,
        n,
        output,
        plane_index(picture.width, y, piece.columns.start),
    );
}

// Row `row` of the piece's blocks, four rows of samples with one spread of filters.
fn filter_four(piece: LumaPiece, row: usize, copy: &[u16], taps: &[i16], output: &mut [u16])
    requires { (row < extent piece.rows / 4) × (PieceCopy piece.columns piece.rows copy.now) × (TapNumbers taps.now)
        × (length output.old ≡ piece.picture.width * piece.picture.height) }
    ensures { let left = piece.columns.start in let n = extent piece.columns in let top = piece.rows.start + 4 * row in
        output.new ≡ painted output.old (in_rect piece.picture.width left (left + n) top (top + 4))
        (spread_sample_at piece.picture piece.grid.ctb copy.now taps.now left n top (4 * row)) }
{
    for i in 0..4 {
        filter_row(piece, 4 * row + i, copy, taps, output);
    }
}

// All rows of blocks: the filters of each are spread once.
fn filter_copy(
    piece: LumaPiece,
    filters: &[i16],
    orders: &[u8],
    map: &[u8],
    copy: &[u16],
    taps: &mut [i16],
    output: &mut [u16],
)
    requires { (BlockRowInput piece.picture piece.grid filters.now orders.now taps.old (length output.old))
        × (PieceCopy piece.columns piece.rows copy.now)
        × (length map.now ≡ 1024) × (MapOf piece.picture piece.grid.ctb copy.now piece.columns piece.rows map.now) }
    ensures { (output.new ≡ painted output.old
        (in_rect piece.picture.width piece.columns.start piece.columns.end piece.rows.start piece.rows.end)
        (luma_copy_sample_at piece.picture piece.grid.ctb copy.now piece.columns piece.rows filters.now))
        × (TapNumbers taps.new) }
{
    let n = extent(piece.columns);
    let count = extent(piece.rows) / 4;
    for row in 0..count {
        spread(filters, orders, map, row * BLOCKS, n / 4, taps);
        filter_four(piece, row, copy, taps, output);
    }
}

// The samples of a piece, filtered: those of every input in which a CTB has these sides and these filters, and the piece is one of its
// pieces.
pub fn filter_piece(
    picture: Picture,
    grid: Grid,
    sides: Sides,
    columns: Piece,
    rows: Piece,
    luma: &[u16],
    filters: &[i16],
    orders: &[u8],
    copy: &mut [u16],
    differences: &mut [u16],
    taps: &mut [i16],
    output: &mut [u16],
)
    requires { (LumaPieceInput picture grid luma.now filters.now orders.now (length copy.old) (length differences.old) taps.old
        (length output.old))
        × (BlockPiece picture.width columns) × (BlockPiece picture.height rows) }
    ensures { ((i : Input) (c : Ctb) → CtbOf i.layout picture c sides → i.luma ≡ luma.now
        → LumaFilters i c filters.now
        → PieceOf (luma_plane i.layout).columns (column_side i.layout c) c.column columns
        → PieceOf (luma_plane i.layout).rows (row_side i.layout c) c.row rows
        → output.new ≡ painted output.old
        (in_rect picture.width columns.start columns.end rows.start rows.end)
        (at_index (luma_plane i.layout) (luma_sample i))) × (TapNumbers taps.new) }
{
    let width = picture.width as usize;
    copy_piece(luma, width, columns, rows, sides, copy);
    let mut map: [u8; 1024] = [0; 1024];
    piece_classes(
        picture,
        grid,
        columns,
        rows,
        copy,
        differences,
        &mut map,
        BLOCKS,
        0,
        0,
    );
    let piece = LumaPiece {
        picture,
        grid,
        columns,
        rows,
    };
    filter_copy(piece, filters, orders, &map, copy, taps, output);
}
