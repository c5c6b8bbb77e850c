// A piece of a CTB filtered: its copy, its filter's numbers spread over the columns, and then row by row.
ghost use Rattle.std.specs.Prelude.{◌≡◌, ℕ, ◌+◌, ◌/◌, ◌≤◌, ◌<◌, length, get_or, pos};
ghost use Rattle.alf_spec.specs.Lists.{painted};
ghost use Rattle.alf_spec.specs.Input.{Input};
ghost use Rattle.alf_spec.specs.Geometry.{sub_width, sub_height, chroma_plane};
ghost use Rattle.alf_spec.specs.Boundary.{column_side, row_side};
ghost use Rattle.alf_spec.specs.Chroma.{chroma_sample};
ghost use Rattle.alf_spec.specs.Process.{at_index};
ghost use Rattle.alf_spec.specs.declared.Ctb.{Ctb};
ghost use Rattle.alf_math.specs.Integers.{CoeffRange, ClipRange};
ghost use Rattle.alf_lists.specs.Regions.{in_rect};
ghost use Rattle.alf_pieces.specs.Pieces.{PieceIn, PieceOf, CtbOf};
ghost use Rattle.alf_taps.specs.Spread.{TapNumbers};
ghost use Rattle.alf_chroma.specs.Samples.{chroma_starts_of};
ghost use Rattle.alf_params.specs.Filters.{ChromaFilter};
ghost use Rattle.alf_chroma.specs.Pieces.{Spread, RowsWork, ChromaWork, unlined_plane, copy_chroma_at};

use crate::kernel::{ChromaStarts, chroma_row};
use crate::rows::rows_at;
use alf_lists::fill;
use alf_math::grid::{sub_height, sub_width};
use alf_pieces::copies::{copy_piece, extent, plane_index};
use alf_pieces::pieces::Piece;
use alf_spec::{ChromaRows, Grid, Picture, Sides};
use alf_taps::{CLIPS, COLUMNS, TapSource};

// The taps of a chroma filter: so many coefficients, and then as many clips.
const TAPS: usize = 6;

// The filter's numbers put into the first n columns of each tap.
fn spread(filters: &[i16], n: usize, taps: &mut [i16])
    requires { (12 ≤ length filters.now) × ((j : ℕ) → j < 6 → CoeffRange (get_or filters.now j (pos 0)))
        × ((j : ℕ) → j < 6 → ClipRange (get_or filters.now (6 + j) (pos 0))) × (n ≤ 128) × (TapNumbers taps.old) }
    ensures { (Spread filters.now 6 n taps.new) × (TapNumbers taps.new) }
{
    for j in 0..TAPS {
        fill(taps, COLUMNS * j, n, filters[j]);
        fill(taps, CLIPS + COLUMNS * j, n, filters[TAPS + j]);
    }
}

// The rows of the copy that the taps of the piece's row t read, where a row of the copy has `pitch` samples.
fn chroma_starts(pitch: usize, t: usize, r: ChromaRows) -> ChromaStarts
    requires { (pitch ≤ 134) × (t < 128) × (r.y1 ≤ 2) × (r.y2 ≤ 2) }
    ensures { result ≡ chroma_starts_of pitch t r }
{
    let row = t + 3;
    let y1 = r.y1 as usize;
    let y2 = r.y2 as usize;
    ChromaStarts {
        above2: (row - y2) * pitch,
        above1: (row - y1) * pitch,
        here: row * pitch,
        below1: (row + y1) * pitch,
        below2: (row + y2) * pitch,
    }
}

// The filtered samples of a piece, row by row, from its copy.
fn filter_rows(
    picture: Picture,
    grid: Grid,
    columns: Piece,
    rows: Piece,
    copy: &[u16],
    taps: &[i16],
    output: &mut [u16],
)
    requires { RowsWork picture grid columns rows copy.now taps.now (length output.old) }
    ensures { output.new ≡ painted output.old
        (in_rect (picture.width / sub_width picture) columns.start columns.end rows.start rows.end)
        (copy_chroma_at picture grid.ctb copy.now taps.now columns rows) }
{
    let n = extent(columns);
    let width = picture.width / sub_width(picture);
    let ratio = sub_height(picture);
    for y in rows.start..rows.end {
        let offsets = rows_at(picture.height, grid.ctb, ratio, y);
        let source = TapSource {
            copy,
            starts: chroma_starts(n + 6, (y - rows.start) as usize, offsets),
            taps,
            shift: offsets.shift,
            depth: picture.bit_depth as u32,
        };
        chroma_row(&source, n, output, plane_index(width, y, columns.start));
    }
}

// The filtered samples of a piece: those of every input in which a CTB has these sides and this filter, and the piece is one of its pieces.
// The pieces are in the samples of the component's plane and go on over the line, which no tap reads across; a filter is 6 coefficients and
// then 6 clips.
pub fn filter_piece(
    picture: Picture,
    grid: Grid,
    sides: Sides,
    columns: Piece,
    rows: Piece,
    chroma: &[u16],
    filters: &[i16],
    copy: &mut [u16],
    taps: &mut [i16],
    output: &mut [u16],
)
    requires { (ChromaWork picture grid chroma.now filters.now (length copy.old) taps.old (length output.old))
        × (PieceIn (picture.width / sub_width picture) columns) × (PieceIn (picture.height / sub_height picture) rows) }
    ensures { ((i : Input) (c : Ctb) (component : ℕ) → CtbOf i.layout picture c sides → i.chroma ≡ chroma.now
        → ChromaFilter i c component filters.now
        → PieceOf (unlined_plane i.layout).columns (column_side i.layout c) c.column columns
        → PieceOf (unlined_plane i.layout).rows (row_side i.layout c) c.row rows
        → output.new ≡ painted output.old
        (in_rect (picture.width / sub_width picture) columns.start columns.end rows.start rows.end)
        (at_index (chroma_plane i.layout) (chroma_sample i component)))
        × (TapNumbers taps.new) }
{
    let width = picture.width / sub_width(picture);
    copy_piece(chroma, width as usize, columns, rows, sides, copy);
    spread(filters, extent(columns), taps);
    filter_rows(picture, grid, columns, rows, copy, taps, output);
}
