// The filters of a row of blocks, spread over its columns by class and transpose, so that the kernel reads them like samples.
ghost use Rattle.std.specs.Prelude.{◌≡◌, ℕ, ◌+◌, ◌*◌, ◌/◌, ◌%◌, ◌≤◌, ◌<◌, pos, nat_abs, length, get_or};
ghost use Rattle.alf_lists.specs.Regions.{in_rect};
ghost use Rattle.alf_lists.specs.Filled.{Filled};
ghost use Rattle.alf_taps.specs.Spread.{clips_at};
ghost use Rattle.alf_params.specs.Filters.{FilterNumbers};
ghost use Rattle.alf_luma.specs.SpreadFilters.{tap_index, TapOrders, number_from, class_from, spread_from, ClassNumbers};

use alf_lists::fill;
use alf_math::tables::tap_order;
use alf_taps::COLUMNS;

// How many numbers a filter has, 12 coefficients and 12 clips, and as many has the tap order of a transpose.
const NUMBERS: usize = 24;

// How many numbers the tap orders of the four transposes have.
pub const ORDERS: usize = 96;

// Which of a filter's numbers is number j in the order of a transpose.
#[tactic(auto, unfolding(crate::specs::SpreadFilters::tap_index))]
fn tap_index(transpose: usize, j: usize) -> usize
    requires { (transpose < 4) × (j < 24) }
    ensures { (result ≡ tap_index transpose j) × (result < 24) }
{
    if j < 12 {
        tap_order(transpose, j)
    } else {
        12 + tap_order(transpose, j - 12)
    }
}

// The tap order as a table that kernels can read from memory: a constant table would be copied at every use.
pub fn tap_orders() -> [u8; ORDERS]
    ensures { TapOrders result }
{
    let mut orders = [0; ORDERS];
    for k in 0..ORDERS {
        orders[k] = tap_index(k / NUMBERS, k % NUMBERS) as u8;
    }
    orders
}

// A filter over the four columns of a block from column `to` on; the order of its transpose begins at index `at` of the tap orders.
fn put_filter(filters: &[i16], from: usize, orders: &[u8], at: usize, taps: &mut [i16], to: usize)
    requires { (from + 24 ≤ length filters.now) × (at + 24 ≤ length orders.now) × (to + 4 ≤ 128) × (2 * clips_at ≤ length taps.old)
        × ((j : ℕ) → j < 24 → get_or orders.now (at + j) 0 < 24) × ((k : ℕ) → nat_abs (get_or filters.now k (pos 0)) ≤ 4096) }
    ensures { Filled (pos 0) taps.old (in_rect 128 to (to + 4) 0 24)
        (number_from filters.now from orders.now at) taps.new }
{
    for j in 0..NUMBERS {
        let index = orders[at + j] as usize;
        fill(taps, j * COLUMNS + to, 4, filters[from + index]);
    }
}

// The filter of a block's class number: class + 32 * transpose.
fn put_class(filters: &[i16], orders: &[u8], number: u8, taps: &mut [i16], to: usize)
    requires { (FilterNumbers filters.now) × (TapOrders orders.now) × (number % 32 < 25) × (number / 32 < 4) × (to + 4 ≤ 128)
        × (2 * clips_at ≤ length taps.old) }
    ensures { Filled (pos 0) taps.old (in_rect 128 to (to + 4) 0 24)
        (class_from filters.now orders.now number) taps.new }
{
    let filter = (number % 32) as usize;
    let transpose = (number / 32) as usize;
    put_filter(
        filters,
        NUMBERS * filter,
        orders,
        NUMBERS * transpose,
        taps,
        to,
    );
}

// The filters of so many blocks, whose class numbers begin at index `at` of the map.
pub(crate) fn spread(
    filters: &[i16],
    orders: &[u8],
    map: &[u8],
    at: usize,
    count: usize,
    taps: &mut [i16],
)
    requires { (FilterNumbers filters.now) × (TapOrders orders.now) × (at + count ≤ length map.now)
        × (ClassNumbers map.now at count)
        × (count ≤ 32) × (2 * clips_at ≤ length taps.old) }
    ensures { Filled (pos 0) taps.old (in_rect 128 0 (4 * count) 0 24)
        (spread_from filters.now orders.now map.now at) taps.new }
{
    for b in 0..count {
        put_class(filters, orders, map[at + b], taps, 4 * b);
    }
}
