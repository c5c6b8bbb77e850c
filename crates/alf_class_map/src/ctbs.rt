// The classes of a CTB's blocks, a piece at a time.
ghost use Rattle.std.specs.Prelude.{◌≡◌, ◌/◌, length};
ghost use Rattle.alf_math.specs.Grids.{AcceptedPicture};
ghost use Rattle.alf_pieces.specs.Pieces.{BlockPiece};
ghost use Rattle.alf_pieces.specs.Walks.{AlongAxes, in_walk};
ghost use Rattle.alf_class_map.specs.ClassWork.{ClassWork, PieceClassified, AxesClassified};

use alf_classify::{AREA, piece_classes};
use alf_pieces::copies::copy_piece;
use alf_pieces::pieces::Piece;
use alf_pieces::walks::{CtbAxes, first_piece, next_piece};
use alf_spec::{Grid, Picture, Sides};

// An accepted picture and its grid.
#[derive(Clone, Copy)]
pub(crate) struct Frame {
    pub picture: Picture,
    pub grid: Grid,
    pub ghost accepted: { AcceptedPicture picture grid },
}

// Room for the work of a piece: its copy, and the second differences of that.
#[derive(Drop)]
pub(crate) struct Rooms {
    pub copy: [u16; AREA],
    pub differences: [u16; 4 * AREA],
}

// The classes of a piece: those of every layout in which a CTB has these sides and the piece is one of its pieces.
fn class_piece(
    frame: Frame,
    sides: Sides,
    columns: Piece,
    rows: Piece,
    luma: &[u16],
    rooms: &mut Rooms,
    map: &mut [u8],
)
    requires { (ClassWork frame.picture luma.now (length map.old))
        × (BlockPiece frame.picture.width columns) × (BlockPiece frame.picture.height rows) }
    ensures { PieceClassified frame.picture sides columns rows luma.now map.old map.new }
{
    let picture = frame.picture;
    copy_piece(
        luma,
        picture.width as usize,
        columns,
        rows,
        sides,
        &mut rooms.copy,
    );
    piece_classes(
        picture,
        frame.grid,
        columns,
        rows,
        &rooms.copy,
        &mut rooms.differences,
        map,
        (picture.width / 4) as usize,
        (columns.start / 4) as usize,
        (rows.start / 4) as usize,
    );
}

// The classes of the blocks of the CTB through which these axes go.
pub(crate) fn class_ctb(
    frame: Frame,
    sides: Sides,
    axes: &CtbAxes,
    luma: &[u16],
    rooms: &mut Rooms,
    map: &mut [u8],
)
    requires { (ClassWork frame.picture luma.now (length map.old))
        × (AlongAxes axes.now) × (axes.now.columns.size ≡ frame.picture.width) × (axes.now.rows.size ≡ frame.picture.height) }
    ensures { AxesClassified frame.picture sides axes.now luma.now (in_walk (frame.picture.width / 4) 4 4 axes.now) map.old map.new }
{
    let mut at = Some(first_piece(axes));
    // stays a `while`: the next piece is found from the piece before it, and no index is counted
    while let Some(walk) = at {
        class_piece(frame, sides, walk.columns, walk.rows, luma, rooms, map);
        at = next_piece(axes, walk);
    }
}
