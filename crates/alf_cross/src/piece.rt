// The cross-component filter of a piece of a CTB.
ghost use Rattle.std.specs.Prelude.{◌≡◌, ℕ, ◌/◌, ◌≤◌, ◌<◌, length};
ghost use Rattle.alf_spec.specs.Lists.{painted};
ghost use Rattle.alf_spec.specs.Input.{Input};
ghost use Rattle.alf_spec.specs.Geometry.{sub_width, sub_height, luma_plane, chroma_plane};
ghost use Rattle.alf_spec.specs.Boundary.{column_side, row_side};
ghost use Rattle.alf_spec.specs.CrossComponent.{cross_sample};
ghost use Rattle.alf_spec.specs.Process.{at_index};
ghost use Rattle.alf_spec.specs.declared.Ctb.{Ctb};
ghost use Rattle.alf_lists.specs.Regions.{in_rect};
ghost use Rattle.alf_pieces.specs.Pieces.{PieceOf, BlockPiece, CtbOf};
ghost use Rattle.alf_pieces.specs.Copies.{copy_length};
ghost use Rattle.alf_cross.specs.Pieces.{CrossPlanes, CrossWork, SmallCopy, CrossFilter, cross_row_of, split_cross_at};

use crate::kernel::{CrossRow, cross_row};
use crate::rows::{coefficients, cross_starts, rows_at};
use crate::source::CrossSource;
use crate::split::split_rows;
use alf_math::grid::{sub_height, sub_width};
use alf_pieces::copies::{copy_piece, extent, plane_index};
use alf_pieces::luma_pieces::LumaPiece;
use alf_pieces::pieces::Piece;
use alf_spec::{Grid, Picture, Sides};

// The piece's samples in row v of the chroma plane.
fn piece_row(piece: LumaPiece, v: u32) -> CrossRow
    requires { (piece.rows.start / sub_height piece.picture ≤ v) × (v < piece.rows.end / sub_height piece.picture) }
    ensures { result ≡ cross_row_of piece.picture piece.grid.ctb piece.columns piece.rows v }
{
    let picture = piece.picture;
    let step = sub_width(picture);
    let y = v * sub_height(picture);
    let width = extent(piece.columns);
    let offsets = rows_at(picture.height, piece.grid.ctb, y);
    CrossRow {
        starts: cross_starts(
            width + 6,
            (y - piece.rows.start) as usize + 3,
            offsets,
            step as usize,
        ),
        from: plane_index(picture.width / step, v, piece.columns.start / step),
        n: width / step as usize,
    }
}

// The piece's samples, from its split copy.
fn piece_rows(piece: LumaPiece, split: &[u16], chroma: &[u16], filters: &[i16], output: &mut [u16])
    requires { (CrossPlanes piece.picture piece.grid chroma.now filters.now (length output.old))
        × (SmallCopy split.now (copy_length piece.columns piece.rows)) }
    ensures { output.new ≡ painted output.old
        (in_rect (piece.picture.width / sub_width piece.picture) (piece.columns.start / sub_width piece.picture)
        (piece.columns.end / sub_width piece.picture) (piece.rows.start / sub_height piece.picture)
        (piece.rows.end / sub_height piece.picture))
        (split_cross_at piece.picture piece.grid.ctb filters.now split.now chroma.now piece.columns piece.rows) }
{
    let picture = piece.picture;
    let source = CrossSource {
        split,
        chroma,
        coeffs: coefficients(filters),
        depth: picture.bit_depth as u32,
    };
    let ratio = sub_height(picture);
    for v in piece.rows.start / ratio..piece.rows.end / ratio {
        cross_row(&source, piece_row(piece, v), output);
    }
}

// The piece's samples: those of every input in which a CTB has these sides, the piece is one of its pieces, and the coefficients are the
// CTB's. The columns of its copy are split where each chroma sample has two; else neighbours stand side by side already.
pub fn filter_piece(
    picture: Picture,
    grid: Grid,
    sides: Sides,
    columns: Piece,
    rows: Piece,
    luma: &[u16],
    chroma: &[u16],
    filters: &[i16],
    copy: &mut [u16],
    split: &mut [u16],
    output: &mut [u16],
)
    requires { (CrossWork picture grid luma.now chroma.now filters.now (length copy.old) (length split.old)
        (length output.old))
        × (BlockPiece picture.width columns) × (BlockPiece picture.height rows) }
    ensures { (i : Input) (c : Ctb) (component : ℕ) → CtbOf i.layout picture c sides
        → i.luma ≡ luma.now → i.chroma ≡ chroma.now → CrossFilter i c component filters.now
        → PieceOf (luma_plane i.layout).columns (column_side i.layout c) c.column columns
        → PieceOf (luma_plane i.layout).rows (row_side i.layout c) c.row rows
        → output.new ≡ painted output.old
        (in_rect (picture.width / sub_width picture) (columns.start / sub_width picture) (columns.end / sub_width picture)
        (rows.start / sub_height picture) (rows.end / sub_height picture))
        (at_index (chroma_plane i.layout) (cross_sample i component)) }
{
    let piece = LumaPiece {
        picture,
        grid,
        columns,
        rows,
    };
    copy_piece(luma, picture.width as usize, columns, rows, sides, copy);
    if sub_width(picture) == 2 {
        split_rows(copy, extent(columns) + 6, extent(rows) + 6, split);
        piece_rows(piece, split, chroma, filters, output);
    } else {
        piece_rows(piece, copy, chroma, filters, output);
    }
}
