// A piece of luma with its picture, for what goes over its samples.
ghost use Rattle.alf_math.specs.Grids.{AcceptedPicture};
ghost use Rattle.alf_pieces.specs.Pieces.{BlockPiece};

use crate::pieces::Piece;
use alf_spec::{Grid, Picture};

// A piece of whole blocks in the luma plane of an accepted picture.
#[derive(Clone, Copy)]
pub struct LumaPiece {
    pub picture: Picture,
    pub grid: Grid,
    pub columns: Piece,
    pub rows: Piece,
    pub ghost accepted: { AcceptedPicture picture grid },
    pub ghost across: { BlockPiece picture.width columns },
    pub ghost down: { BlockPiece picture.height rows },
}
