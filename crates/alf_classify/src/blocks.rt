// The classes of the blocks of a piece: (1470) to (1479) give the sums of a block's window, (1480) to (1500) its class from them.
ghost use Rattle.std.specs.Prelude.{◌≡◌, ℕ, ◌+◌, ◌-◌, ◌*◌, ◌/◌, ◌≤◌, ◌<◌, length, get_or};
ghost use Rattle.alf_spec.specs.Lists.{painted};
ghost use Rattle.alf_spec.specs.Classes.{class_of_sums};
ghost use Rattle.alf_spec.specs.Process.{class_number};
ghost use Rattle.alf_lists.specs.Regions.{between, in_rect};
ghost use Rattle.alf_pieces.specs.Pieces.{BlockPiece};
ghost use Rattle.alf_pieces.specs.Copies.{area, extent, copy_length};
ghost use Rattle.alf_classify.specs.Windows.{SmallRuns, column_sums, column_class, row_class};
ghost use Rattle.alf_classify.specs.PieceClasses.{ClassRooms, MapRoom, row_window, copy_class_at};

use crate::differences::{AREA, all_differences};
use crate::sums::{block_sum, column_sums};
use alf_boundary::clips::line_rule;
use alf_direction::direction::class_of_sums;
use alf_math::windows::window_rows;
use alf_pieces::copies::extent;
use alf_pieces::pieces::Piece;
use alf_spec::{Grid, Picture, Sums, WindowRows};

// The windows of a row of 32 blocks have so many columns: each begins 4 after the one before, and the last column that counts is its
// seventh.
const COLUMNS: usize = 131;

// The sums of columns for a row of blocks, in the four directions.
#[derive(Drop)]
struct ColumnSums {
    v: [u16; COLUMNS],
    h: [u16; COLUMNS],
    d0: [u16; COLUMNS],
    d1: [u16; COLUMNS],
}

// What the activity of a row's blocks is scaled by: the factor of their windows, and the bit depth.
#[derive(Clone, Copy)]
struct Scale {
    factor: u32,
    depth: u32,
    ghost in_range: { (factor ≤ 3) × (8 ≤ depth) × (depth ≤ 12) },
}

// The class number of a block, from the sums of columns; those of its window begin at index `at`.
fn block_class(columns: &ColumnSums, at: usize, scale: Scale) -> u8
    requires { at + 6 < COLUMNS }
    ensures { result ≡ class_number (class_of_sums scale.depth scale.factor (column_sums columns.now at)) }
{
    let sums = Sums {
        v: block_sum(&columns.v, at),
        h: block_sum(&columns.h, at),
        d0: block_sum(&columns.d0, at),
        d1: block_sum(&columns.d1, at),
    };
    let class = class_of_sums(sums, scale.factor, scale.depth);
    (class.filter + 32 * class.transpose) as u8
}

// The class numbers of so many blocks in a row.
fn class_run(columns: &ColumnSums, count: usize, scale: Scale, map: &mut [u8], at: usize)
    requires { (4 * count + 2 < COLUMNS) × (at + count ≤ length map.old) }
    ensures { map.new ≡ painted map.old (between at count) (column_class columns.now scale.factor scale.depth at) }
{
    for m in 0..count {
        map[at + m] = block_class(columns, 4 * m, scale);
    }
}

// The class numbers of a row of blocks of a piece; the differences that count for it begin at index `from`.
fn class_row(
    differences: &[u16],
    from: usize,
    pitch: usize,
    count: usize,
    window: WindowRows,
    depth: u32,
    map: &mut [u8],
    at: usize,
)
    requires { (count ≤ 32) × (1 ≤ pitch) × (3 ≤ window.count / 2) × (window.count / 2 ≤ 4) × (window.factor ≤ 3)
        × (8 ≤ depth) × (depth ≤ 12)
        × (at + count ≤ length map.old)
        × (3 * area + from + (4 * count + 3) + (window.count / 2 * (2 * pitch) + 1 - pitch) ≤ length differences.now)
        × (SmallRuns differences.now from (4 * count + 3) (window.count / 2 * (2 * pitch) + 1 - pitch)) }
    ensures { map.new ≡ painted map.old (between at count)
        (row_class differences.now pitch window depth from at) }
{
    let pairs = window.count / 2;
    let n = 4 * count + 3;
    let mut columns = ColumnSums {
        v: [0; COLUMNS],
        h: [0; COLUMNS],
        d0: [0; COLUMNS],
        d1: [0; COLUMNS],
    };
    column_sums(differences, from, pitch, pairs, n, &mut columns.v);
    column_sums(differences, AREA + from, pitch, pairs, n, &mut columns.h);
    column_sums(
        differences,
        2 * AREA + from,
        pitch,
        pairs,
        n,
        &mut columns.d0,
    );
    column_sums(
        differences,
        3 * AREA + from,
        pitch,
        pairs,
        n,
        &mut columns.d1,
    );
    let scale = Scale {
        factor: window.factor,
        depth: depth,
    };
    class_run(&columns, count, scale, map, at);
}

// The rows that count in the windows of the blocks whose first row is y.
fn row_window(height: u32, ctb: u32, y: u32) -> WindowRows
    requires { (8 ≤ ctb) × (ctb ≤ 128) × (y ≤ 4096) }
    ensures { result ≡ row_window height ctb y }
{
    window_rows(line_rule(height, ctb, y), ctb, y % ctb)
}

// Where the differences that count begin, for the given row of blocks of a piece.
fn window_index(row: u32, first: u32, pitch: usize) -> usize
    requires { (row ≤ 32) × (first ≤ 3) × (pitch ≤ 134) }
    ensures { result ≡ (4 * row + first) * pitch + 1 }
{
    (4 * row + first) as usize * pitch + 1
}

// The index in the map of the first block in the given row of blocks of a piece.
fn map_index(map_columns: usize, left: usize, top: usize, row: u32) -> usize
    requires { (map_columns ≤ 1024) × (left ≤ 1024) × (top + row ≤ 1024) }
    ensures { result ≡ (top + row) * map_columns + left }
{
    (top + row as usize) * map_columns + left
}

// The classes of the blocks of a piece, from its copy. They go to a map whose rows have `map_columns` blocks, that of the picture or one of
// the caller's own; the piece's first block stands at its column `left` and row `top`. Picture and grid stay two arguments here and of
// `filter_piece` of each filter: a type that holds the fact about the two would ask more of a caller than they do.
pub fn piece_classes(
    picture: Picture,
    grid: Grid,
    columns: Piece,
    rows: Piece,
    copy: &[u16],
    differences: &mut [u16],
    map: &mut [u8],
    map_columns: usize,
    left: usize,
    top: usize,
)
    requires { (ClassRooms picture grid (length copy.now) (length differences.old))
        × (BlockPiece picture.width columns) × (BlockPiece picture.height rows)
        × ((k : ℕ) → k < copy_length columns rows → get_or copy.now k 0 < 4096)
        × (MapRoom columns rows map_columns left top (length map.old)) }
    ensures { map.new ≡ painted map.old
        (in_rect map_columns left (left + extent columns / 4) top (top + extent rows / 4))
        (copy_class_at picture grid.ctb copy.now columns rows map_columns left top) }
{
    let width = extent(columns);
    let pitch = width + 6;
    let n = (extent(rows) + 6) * pitch;
    all_differences(&copy[..n], pitch, differences);
    let count = width / 4;
    let depth = u32::from(picture.bit_depth);
    for row in 0..(rows.end - rows.start) / 4 {
        let window = row_window(picture.height, grid.ctb, rows.start + 4 * row);
        let from = window_index(row, window.first, pitch);
        let at = map_index(map_columns, left, top, row);
        class_row(differences, from, pitch, count, window, depth, map, at);
    }
}
