// The sides of a row of blocks, and of a block in it, from those of their CTB. Blocks are of 8 by 8 luma samples; a row and a block are
// known by their place in the picture, counted in blocks.
ghost use Rattle.std.specs.Prelude.{◌≡◌, ◌≤◌, ◌<◌};
ghost use Rattle.alf_isolation.specs.Steps.{row_sides, block_sides};

use crate::axis::BlockAxis;
use alf_boundary::causes::disables;
use alf_spec::Sides;

// The sides and corners of a block, or of a row of blocks in a CTB: true where no step across is open.
#[derive(Clone, Copy)]
pub struct BlockSides {
    pub left: bool,
    pub right: bool,
    pub top: bool,
    pub bottom: bool,
    pub upper_left: bool,
    pub lower_right: bool,
}

// The sides of a row of blocks, from those of its CTB: top and bottom are its own, and the corners count at the CTB's top and bottom.
#[tactic(auto, unfolding(crate::specs::Steps::row_sides))]
pub fn row_sides(rows: &BlockAxis, sides: Sides, y: u32) -> BlockSides
    requires { y ≤ 512 }
    ensures { result ≡ row_sides rows.now.size rows.now.ctb rows.now.boundaries.now sides y }
{
    let ends = rows.ends(disables(sides.top), disables(sides.bottom), y);
    BlockSides {
        left: disables(sides.left),
        right: disables(sides.right),
        top: ends.closed_before,
        bottom: ends.closed_after,
        upper_left: ends.ctb_before & sides.upper_left,
        lower_right: ends.ctb_after & sides.lower_right,
    }
}

// The sides of a block, from those of its row: left and right are its own, and the corners count at the CTB's left and right. It takes the
// other two sides from another type than `row_sides` does, so the two stay two.
#[tactic(auto, unfolding(crate::specs::Steps::block_sides))]
pub fn block_sides(columns: &BlockAxis, sides: BlockSides, x: u32) -> BlockSides
    requires { x ≤ 512 }
    ensures { result ≡ block_sides columns.now.size columns.now.ctb columns.now.boundaries.now sides x }
{
    let ends = columns.ends(sides.left, sides.right, x);
    BlockSides {
        left: ends.closed_before,
        right: ends.closed_after,
        top: sides.top,
        bottom: sides.bottom,
        upper_left: ends.ctb_before & sides.upper_left,
        lower_right: ends.ctb_after & sides.lower_right,
    }
}
