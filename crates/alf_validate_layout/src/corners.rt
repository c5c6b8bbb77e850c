// The rules at the corners where four CTBs of a map meet.
ghost use Rattle.std.specs.Prelude.{◌≡◌, ℕ, Bool, ◌+◌, ◌*◌, ◌-◌, ◌<◌, ◌≤◌, length};
ghost use Rattle.alf_spec.specs.Lists.{all_below};
ghost use Rattle.alf_spec.specs.Faults.{slice_corner, subpic_corner, corner_at, corners_in_row};

// Whose rule: that of the slice map or of the subpicture map.
pub trait CornerRule {
    ghost rule: { ℕ → ℕ → ℕ → ℕ → Bool };

    // Whether four CTBs round a corner may have these numbers, upper left first, row by row.
    fn holds(a: u8, b: u8, c: u8, d: u8) -> bool
        ensures { result ≡ rule a b c d };
}

pub struct Slices;

impl CornerRule for Slices {
    ghost rule = { slice_corner };

    fn holds(a: u8, b: u8, c: u8, d: u8) -> bool {
        !((a == c) & ((a == d) & (a != b))) & !((a == b) & ((a == d) & (a != c)))
    }
}

pub struct Subpictures;

// Never exactly three of four alike.
impl CornerRule for Subpictures {
    ghost rule = { subpic_corner };

    fn holds(a: u8, b: u8, c: u8, d: u8) -> bool {
        !((a == b) & ((a == c) & (a != d)))
            & (!((a == b) & ((a == d) & (a != c)))
                & (!((a == c) & ((a == d) & (a != b))) & !((b == c) & ((b == d) & (b != a)))))
    }
}

// The rule at the corner whose upper left CTB is column x of the row that begins at `from`.
#[tactic(auto, unfolding(alf_spec::specs::Faults::corner_at))]
fn corner_at<R: CornerRule>(map: &[u8], columns: usize, from: usize, x: usize) -> bool
    requires { from + columns + x + 1 < length map.now }
    ensures { result ≡ corner_at R.rule map.now columns from x }
{
    let below = from + columns;
    R::holds(
        map[from + x],
        map[from + x + 1],
        map[below + x],
        map[below + x + 1],
    )
}

// Where row y begins in a map that has another row behind it.
#[tactic(auto, using(crate::proofs::Layouts::two_rows))]
fn row_start(map: &[u8], columns: usize, rows: usize, y: usize) -> usize
    requires { (length map.now ≡ columns * rows) × (y + 1 < rows) }
    ensures { (result ≡ y * columns) × (result + columns + columns ≤ length map.now) }
{
    y * columns
}

// Whether the rule holds at each corner; the first that breaks it ends both loops.
pub fn corners_valid<R: CornerRule>(map: &[u8], columns: usize, rows: usize) -> bool
    requires { length map.now ≡ columns * rows }
    ensures { result ≡ all_below (rows - 1) (corners_in_row R.rule map.now columns) }
{
    let mut good = true;
    'corners: for y in 0..rows.saturating_sub(1) {
        let from = row_start(map, columns, rows, y);
        for x in 0..columns.saturating_sub(1) {
            good = corner_at::<R>(map, columns, from, x);
            if !good {
                break 'corners;
            }
        }
    }
    good
}
