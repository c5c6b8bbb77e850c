// The copy of a piece with its columns split, for planes of half the width: what a tap of neighbouring chroma samples reads then stands
// side by side.
ghost use Rattle.std.specs.Prelude.{◌≡◌, ℕ, ◌+◌, ◌*◌, ◌%◌, ◌≤◌, ◌<◌, length, get_or};
ghost use Rattle.alf_cross.specs.Taps.{split_index, SplitRow, Split};

// Where column c of the copy stands in its row of the split copy.
#[tactic(auto, unfolding(crate::specs::Taps::split_index))]
pub(crate) fn column_index(pitch: usize, step: usize, c: usize) -> usize
    requires { (pitch ≤ 134) × (c ≤ 134) }
    ensures { result ≡ split_index pitch step c }
{
    if step == 2 {
        c % 2 * (pitch / 2) + c / 2
    } else {
        c
    }
}

// The row that begins at `at`, its even columns first. One loop writes both halves: LLVM then reads each sample once.
fn split_row(copy: &[u16], pitch: usize, at: usize, split: &mut [u16])
    requires { (pitch % 2 ≡ 0) × (at + pitch ≤ length copy.now) × (at + pitch ≤ length split.old) }
    ensures { (SplitRow copy.now split.new pitch 2 at pitch)
        × ((k : ℕ) → k < at → get_or split.new k 0 ≡ get_or split.old k 0) }
{
    let half = pitch / 2;
    for i in 0..half {
        split[at + i] = copy[at + 2 * i];
        split[at + half + i] = copy[at + 2 * i + 1];
    }
}

// The rows of the copy, each split.
pub(crate) fn split_rows(copy: &[u16], pitch: usize, rows: usize, split: &mut [u16])
    requires { (pitch % 2 ≡ 0) × (rows * pitch ≤ length copy.now) × (rows * pitch ≤ length split.old) }
    ensures { Split copy.now split.new pitch 2 rows }
{
    for j in 0..rows {
        split_row(copy, pitch, j * pitch, split);
    }
}
