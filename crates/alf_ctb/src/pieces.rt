// A piece of a CTB, filtered.
ghost use Rattle.std.specs.Prelude.{length};
ghost use Rattle.alf_pieces.specs.Pieces.{BlockPiece};
ghost use Rattle.alf_taps.specs.Spread.{TapNumbers};
ghost use Rattle.alf_ctb.specs.FilterWork.{PlanesGiven, FilterRooms, Numbers, PieceFiltered};

use crate::inputs::Planes;
use alf_math::grid::{sub_height, sub_width};
use alf_pieces::pieces::{Piece, scaled};
use alf_spec::{Filter, Grid, Sides};

// The samples of a piece of the luma plane, or the chroma samples that lie in it, by the filter: those of every input in which a CTB has
// these sides and this filter's numbers, and the piece is one of its pieces.
pub fn filter_piece(
    filter: Filter,
    planes: &Planes,
    grid: Grid,
    sides: Sides,
    columns: Piece,
    rows: Piece,
    filters: &[i16],
    orders: &[u8],
    copy: &mut [u16],
    differences: &mut [u16],
    taps: &mut [i16],
    output: &mut [u16],
)
    requires { let picture = planes.now.layout.picture in (PlanesGiven filter planes.now grid orders.now) × (Numbers filter filters.now)
        × (FilterRooms filter picture (length copy.old) (length differences.old) taps.old (length output.old))
        × (BlockPiece picture.width columns) × (BlockPiece picture.height rows) }
    ensures { (PieceFiltered filter planes.now sides columns rows filters.now output.old output.new)
        × (TapNumbers taps.new) }
{
    let Planes {
        picture,
        luma,
        chroma,
    } = *planes;
    match filter {
        Filter::Luma => {
            alf_luma::filter_piece(
                picture,
                grid,
                sides,
                columns,
                rows,
                luma,
                filters,
                orders,
                copy,
                differences,
                taps,
                output,
            );
        }
        Filter::Chroma(_) => {
            alf_chroma::piece::filter_piece(
                picture,
                grid,
                sides,
                scaled(columns, sub_width(picture)),
                scaled(rows, sub_height(picture)),
                chroma,
                filters,
                copy,
                taps,
                output,
            );
        }
        // it finds no classes: the room for differences takes the split copy
        Filter::CrossComponent(_) => {
            alf_cross::filter_piece(
                picture,
                grid,
                sides,
                columns,
                rows,
                luma,
                chroma,
                filters,
                copy,
                differences,
                output,
            );
        }
    }
}
