// The blocks next to a block, and the test of the blocks of a row: no open step leads from one in the region to one outside of it. A region
// has a number for each 8 by 8 luma block, 1 inside.
ghost use Rattle.std.specs.Prelude.{◌≡◌, false, ◌||◌, ◌+◌, ◌/◌, ◌≤◌, ◌<◌, length};
ghost use Rattle.alf_spec.specs.Lists.{all_below};
ghost use Rattle.alf_isolation.specs.Steps.{inside_at, neighbours_inside, block_test, RowIn, BlockIn};

use crate::axis::BlockAxis;
use crate::steps::{BlockSides, block_sides};

// A row of blocks in a CTB: where it begins in the region, and its sides.
#[derive(Clone, Copy)]
pub struct BlockRow {
    pub from: u32,
    pub sides: BlockSides,
}

// Whether a step over a side or a corner leads into the region, to block k; where it is disabled, there is no step.
fn leads_inside(disabled: bool, region: &[u8], k: usize) -> bool
    requires { disabled ≡ false → k < length region.now }
    ensures { result ≡ (disabled || inside_at region.now k) }
{
    disabled || region[k] == 1
}

// Whether no open step leads from block k out of the region.
#[tactic(auto, unfolding(crate::specs::Steps::neighbours_inside))]
fn neighbours_inside(region: &[u8], columns: usize, k: usize, sides: BlockSides) -> bool
    requires { BlockIn (length region.now) columns k sides }
    ensures { result ≡ neighbours_inside region.now columns k sides }
{
    let beside = leads_inside(sides.left, region, k.saturating_sub(1))
        & leads_inside(sides.right, region, k + 1);
    let stacked = leads_inside(sides.top, region, k.saturating_sub(columns))
        & leads_inside(sides.bottom, region, k + columns);
    let left = leads_inside(
        sides.left | (sides.top | sides.upper_left),
        region,
        k.saturating_sub(columns + 1),
    ) & leads_inside(sides.left | sides.bottom, region, k + (columns - 1));
    let right = leads_inside(
        sides.right | sides.top,
        region,
        k.saturating_sub(columns - 1),
    ) & leads_inside(
        sides.right | (sides.bottom | sides.lower_right),
        region,
        k + (columns + 1),
    );
    beside & (stacked & (left & right))
}

// Whether the block at column x of a row passes: it is not in the region, or no open step leads out of it.
fn block_passes(columns: &BlockAxis, region: &[u8], row: BlockRow, x: u32) -> bool
    requires { (RowIn columns.now.size columns.now.ctb (length region.now) row.from row.sides) × (x < columns.now.size / 8) }
    ensures { result ≡ block_test columns.now.size columns.now.ctb columns.now.boundaries.now region.now row.from row.sides x }
{
    let k = (row.from + x) as usize;
    if region[k] != 1 {
        return true;
    }
    let own = block_sides(columns, row.sides, x);
    neighbours_inside(region, (columns.size / 8) as usize, k, own)
}

// Whether each of so many blocks of a row passes, from column `first` on. A `for` and no `all`: the proof of a closure that lends two
// records on did not close.
pub fn run_passes(columns: &BlockAxis, region: &[u8], row: BlockRow, first: u32, count: u32) -> bool
    requires { (RowIn columns.now.size columns.now.ctb (length region.now) row.from row.sides) × (first + count ≤ columns.now.size / 8) }
    ensures { result ≡ all_below count (λ i.
        block_test columns.now.size columns.now.ctb columns.now.boundaries.now region.now row.from row.sides (first + i)) }
{
    for i in 0..count {
        if !block_passes(columns, region, row, first + i) {
            return false;
        }
    }
    true
}
