// The sums of second differences over the windows of a row of blocks: first over the window's rows, for each column once, then over its
// columns.
//   (1476) to (1479)  sum = Σ filt[ i ][ j ],  i = −2..5,  j = minY..maxY,  of those i and j that are both even or both odd
// A list, an index and the pitch of its rows stay three arguments: that entries are small holds of a run of the list alone, and each
// function reads another run, so that a type that keeps it would need the run's ends too.
ghost use Rattle.std.specs.Prelude.{◌≡◌, ℕ, ◌+◌, ◌-◌, ◌*◌, ◌^◌, ◌≤◌, ◌<◌, length, get_or};
ghost use Rattle.alf_spec.specs.Lists.{painted};
ghost use Rattle.alf_lists.specs.Regions.{between};
ghost use Rattle.alf_classify.specs.Windows.{pair_at, column_sum, SmallRun, column_from, four_columns};

// At an even column, the two samples of a 2 by 2 cell that count: those whose offsets are both even, and both odd. At an odd column it is
// of no use.
fn pair(d: &[u16], k: usize, pitch: usize) -> u16
    requires { (k + (pitch + 1) < length d.now) × (SmallRun d.now k (k + (pitch + 2))) }
    ensures { (result ≡ pair_at d.now pitch k) × (result ≤ 16380) }
{
    d[k] + d[k + (pitch + 1)]
}

// The sum of one column over so many pairs of rows: 3 or 4, which a compiler writes out.
#[tactic(auto, using(crate::proofs::ColumnSums::column_more))]
fn column_sum<const PAIRS: usize>(d: &[u16], k: usize, pitch: usize) -> u16
    requires { (1 ≤ PAIRS) × (PAIRS ≤ 4) × (k + (PAIRS * (2 * pitch) + 1 - pitch) < length d.now)
        × (SmallRun d.now k (k + (PAIRS * (2 * pitch) + 2 - pitch))) }
    ensures { result ≡ column_sum d.now pitch PAIRS k }
{
    let mut sum = 0;
    for u in 0..PAIRS {
        sum += pair(d, k + u * (2 * pitch), pitch);
    }
    sum
}

// The sums of n columns over so many pairs of rows, one column after the other.
fn sum_columns<const PAIRS: usize>(d: &[u16], from: usize, pitch: usize, n: usize, sums: &mut [u16])
    requires { (1 ≤ PAIRS) × (PAIRS ≤ 4) × (1 ≤ pitch) × (n ≤ length sums.old)
        × (from + n + (PAIRS * (2 * pitch) + 1 - pitch) ≤ length d.now)
        × (SmallRun d.now from (from + n + (PAIRS * (2 * pitch) + 1 - pitch))) }
    ensures { sums.new ≡ painted sums.old (between 0 n) (column_from d.now pitch PAIRS from) }
{
    for x in 0..n {
        sums[x] = column_sum::<PAIRS>(d, from + x, pitch);
    }
}

// The sums of n columns over three or four pairs of rows.
pub(crate) fn column_sums(
    d: &[u16],
    from: usize,
    pitch: usize,
    pairs: u32,
    n: usize,
    sums: &mut [u16],
)
    requires { (3 ≤ pairs) × (pairs ≤ 4) × (1 ≤ pitch) × (n ≤ length sums.old)
        × (from + n + (pairs * (2 * pitch) + 1 - pitch) ≤ length d.now)
        × (SmallRun d.now from (from + n + (pairs * (2 * pitch) + 1 - pitch))) }
    ensures { sums.new ≡ painted sums.old (between 0 n) (column_from d.now pitch pairs from) }
{
    if pairs == 4 {
        sum_columns::<4>(d, from, pitch, n, sums);
    } else {
        sum_columns::<3>(d, from, pitch, n, sums);
    }
}

// The sum over the columns of a block's window: four cells of two columns.
#[tactic(auto, using(crate::proofs::ColumnSums::four_columns_lem))]
pub(crate) fn block_sum(sums: &[u16], at: usize) -> u32
    requires { at + 6 < length sums.now }
    ensures { (result ≡ four_columns sums.now at) × (result < 2 ^ 18) }
{
    u32::from(sums[at])
        + u32::from(sums[at + 2])
        + u32::from(sums[at + 4])
        + u32::from(sums[at + 6])
}
