// A CTB, filtered, a piece at a time.
ghost use Rattle.std.specs.Prelude.{◌≡◌, length};
ghost use Rattle.alf_pieces.specs.Walks.{AlongAxes};
ghost use Rattle.alf_taps.specs.Spread.{TapNumbers};
ghost use Rattle.alf_ctb.specs.Filters.{walk_line};
ghost use Rattle.alf_ctb.specs.FilterWork.{PlanesGiven, FilterRooms, Numbers, AxesFiltered, in_filtered};

use crate::inputs::Planes;
use crate::pieces::filter_piece;
use alf_pieces::walks::{CtbAxes, first_piece, next_piece};
use alf_spec::{Filter, Grid, Sides};

// How far above a CTB's bottom the line lies at which its pieces end, in luma rows. For chroma they go on over it: no tap of the chroma
// filter reads across its own line. What a filter does is chosen by a match on `Filter` here, in `pieces` and in `tables`: the kinds are
// these three, and each arm calls a function of another crate with other arguments, so that a closure would say no less.
pub fn walk_line(filter: Filter) -> u32
    ensures { result ≡ walk_line filter }
{
    match filter {
        Filter::Luma => 4,
        Filter::Chroma(_) => 0,
        Filter::CrossComponent(_) => 4,
    }
}

// The samples of the CTB through which these axes go. The line of the axis of rows is the filter's `walk_line`. The rooms to work in stay
// three lists: they may be of any length from the limit up, which arrays in a struct could not, and a struct of lent lists is no plainer.
pub fn filter_ctb(
    filter: Filter,
    planes: &Planes,
    grid: Grid,
    sides: Sides,
    axes: &CtbAxes,
    filters: &[i16],
    orders: &[u8],
    copy: &mut [u16],
    differences: &mut [u16],
    taps: &mut [i16],
    output: &mut [u16],
)
    requires { let picture = planes.now.layout.picture in (PlanesGiven filter planes.now grid orders.now) × (Numbers filter filters.now)
        × (FilterRooms filter picture (length copy.old) (length differences.old) taps.old (length output.old))
        × (AlongAxes axes.now) × (axes.now.columns.size ≡ picture.width) × (axes.now.rows.size ≡ picture.height) }
    ensures { (AxesFiltered filter planes.now sides axes.now filters.now (in_filtered filter planes.now.layout.picture axes.now)
        output.old output.new) × (TapNumbers taps.new) }
{
    let mut at = Some(first_piece(axes));
    // stays a `while`: how many pieces there are is known at the last one
    while let Some(piece) = at {
        filter_piece(
            filter,
            planes,
            grid,
            sides,
            piece.columns,
            piece.rows,
            filters,
            orders,
            copy,
            differences,
            taps,
            output,
        );
        at = next_piece(axes, piece);
    }
}
