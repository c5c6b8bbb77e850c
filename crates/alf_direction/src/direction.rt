// The class and the transpose of a block, from the sums over its window. What decides a class has no number wider than 32 bits, and
// multiplies nowhere but in `products`, 16 bits by 16: other multiples are sums and shifts (02, card 3).
ghost use Rattle.std.specs.Prelude.{◌≡◌, ◌+◌, ◌*◌, ◌/◌, ◌^◌, ◌≤◌, ◌<◌, min, get_or};
ghost use Rattle.alf_spec.specs.Classes.{larger as larger_of, diagonal, strength as strength_of, activity as activity_of, transpose_table};
ghost use Rattle.alf_spec.specs.Classes.{transpose_idx, filt_idx, class_of_sums};

use crate::products::product_less;
use crate::tables::{activity_entry, transpose_entry};
use alf_spec::{Class, Gradient, Sums};

// The larger of two sums, the smaller, and the larger one's direction; a is the larger only where it is greater.
fn larger(a: u32, b: u32, da: u32, db: u32) -> Gradient
    ensures { result ≡ larger_of a b da db }
{
    if b < a {
        Gradient {
            large: a,
            small: b,
            direction: da,
        }
    } else {
        Gradient {
            large: b,
            small: a,
            direction: db,
        }
    }
}

// d1 * hv0 > hv1 * d0: products, since a sum may be zero
fn is_diagonal(d: Gradient, hv: Gradient) -> bool
    ensures { result ≡ diagonal d hv }
{
    product_less(hv.large, d.small, d.large, hv.small)
}

// (1497). A number, as a direction is: (1500) adds it to the filter index.
fn strength(g: Gradient) -> u32
    requires { (g.large < 2 ^ 18) × (g.small < 2 ^ 18) }
    ensures { result ≡ strength_of g }
{
    if (g.small << 3) + g.small < g.large << 1 {
        2
    } else if g.small << 1 < g.large {
        1
    } else {
        0
    }
}

// n * factor, for the activity: n is too wide for a factor
fn multiple(n: u32, factor: u32) -> u32
    requires { (n < 2 ^ 19) × (factor ≤ 3) }
    ensures { result ≡ n * factor }
{
    match factor {
        3 => (n << 1) + n,
        2 => n << 1,
        1 => n,
        _ => 0,
    }
}

// Clip3( 0, 15, n ). It stands here, as all else does that decides a class: the tests read this code to its end.
fn up_to_15(n: u32) -> u32
    ensures { result ≡ min 15 n }
{
    if n < 15 { n } else { 15 }
}

// (1499)
pub fn activity(total: u32, factor: u32, depth: u32) -> u32
    requires { (total < 2 ^ 19) × (factor ≤ 3) × (8 ≤ depth) × (depth ≤ 12) }
    ensures { result ≡ activity_of depth factor total }
{
    activity_entry(up_to_15(multiple(total, factor) >> (depth - 1))) as u32
}

// The transpose, from the directions of the main gradient and the other.
fn transpose(main: u32, other: u32) -> u32
    requires { (main < 4) × (other < 4) }
    ensures { result ≡ get_or transpose_table (main * 2 + other / 2) 0 }
{
    transpose_entry((main << 1) + (other >> 1)) as u32
}

// (1500)
fn filter_index(activity: u32, main: Gradient) -> u32
    requires { (activity < 5) × (main.large < 2 ^ 18) × (main.small < 2 ^ 18) }
    ensures { result ≡ filt_idx activity main }
{
    let k = strength(main);
    if k == 0 {
        activity
    } else {
        let fives = (main.direction % 2 << 1) + k;
        activity + (fives << 2) + fives
    }
}

// The class by the main gradient, the other, and the activity.
fn class_by(main: Gradient, other: Gradient, activity: u32) -> Class
    requires { (activity < 5) × (main.large < 2 ^ 18) × (main.small < 2 ^ 18) × (main.direction < 4) × (other.direction < 4) }
    ensures { result ≡ record { filter = filt_idx activity main; transpose = transpose_idx main other } }
{
    Class {
        filter: filter_index(activity, main),
        transpose: transpose(main.direction, other.direction),
    }
}

// The class of a block whose window has the sums s.
pub fn class_of_sums(s: Sums, factor: u32, depth: u32) -> Class
    requires { (s.v < 2 ^ 18) × (s.h < 2 ^ 18) × (s.d0 < 2 ^ 18) × (s.d1 < 2 ^ 18) × (factor ≤ 3) × (8 ≤ depth) × (depth ≤ 12) }
    ensures { result ≡ class_of_sums depth factor s }
{
    let hv = larger(s.v, s.h, 1, 3);
    let dd = larger(s.d0, s.d1, 0, 2);
    let level = activity(s.h + s.v, factor, depth);
    if is_diagonal(dd, hv) {
        class_by(dd, hv, level)
    } else {
        class_by(hv, dd, level)
    }
}
