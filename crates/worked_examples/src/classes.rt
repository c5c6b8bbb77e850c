// The class of four sums, and the comparison of products that decides it.
ghost use Rattle.std.specs.Prelude.{◌≡◌, ◌^◌, ◌≤◌, ◌<◌};

use alf_direction::direction::class_of_sums;
use alf_direction::products::product_less;
use alf_spec::Sums;
use std::io;

// The sums of an example, in a paper's order.
pub(crate) fn sums(v: u32, h: u32, d0: u32, d1: u32) -> Sums
    ensures { result ≡ record { v = v; h = h; d0 = d0; d1 = d1 } }
{
    Sums { v, h, d0, d1 }
}

// Sums, and their class and transpose with factor 2.
pub fn show_class(rt: &impl Print, s: Sums, depth: u32) -> io::Result<()>
    requires { (s.v < 2 ^ 18) × (s.h < 2 ^ 18) × (s.d0 < 2 ^ 18) × (s.d1 < 2 ^ 18) × (8 ≤ depth) × (depth ≤ 12) }
{
    let Sums { v, h, d0, d1 } = s;
    print!(rt; "  V {v}  H {h}  D0 {d0}  D1 {d1}")?;
    let class = class_of_sums(s, 2, depth);
    let filter = class.filter;
    let transpose = class.transpose;
    print!(rt; " -> class {filter}, transpose {transpose}")
}

// Large sums at depth 12, and a comparison of products of theirs.
fn show_large(rt: &impl Print, s: Sums) -> io::Result<()>
    requires { (s.v < 2 ^ 18) × (s.h < 2 ^ 18) × (s.d0 < 2 ^ 18) × (s.d1 < 2 ^ 18) }
{
    print!(rt; "   ")?;
    show_class(rt, s, 12)?;
    let less = if product_less(s.v, s.h, s.d0, s.d1) {
        "yes"
    } else {
        "no"
    };
    println!(rt; ", V * H < D0 * D1: {less}")
}

// Sums that are less by one, each in turn.
fn show_one_less(rt: &impl Print, s: Sums) -> io::Result<()>
    requires { (0 < s.v) × (s.v < 2 ^ 18) × (0 < s.h) × (s.h < 2 ^ 18) × (0 < s.d0) × (s.d0 < 2 ^ 18) × (0 < s.d1) × (s.d1 < 2 ^ 18) }
{
    show_large(rt, Sums { v: s.v - 1, ..s })?;
    show_large(rt, Sums { h: s.h - 1, ..s })?;
    show_large(rt, Sums { d0: s.d0 - 1, ..s })?;
    show_large(rt, Sums { d1: s.d1 - 1, ..s })
}

// At 12 bits 32 second differences of up to 8,190 make a sum of up to 262,080: four times that, and one off in each.
pub fn show_largest(rt: &impl Print) -> io::Result<()> {
    let most = sums(262080, 262080, 262080, 262080);
    show_large(rt, most)?;
    show_one_less(rt, most)?;
    show_large(rt, Sums { v: 262081, ..most })?;
    show_large(rt, Sums { h: 262081, ..most })?;
    show_large(rt, Sums { d0: 262081, ..most })?;
    show_large(rt, Sums { d1: 262081, ..most })
}

// Both gradients of one strength, 3 to 1, and one less in each sum: which is the main one shows in the class.
pub fn show_ties(rt: &impl Print) -> io::Result<()> {
    let ties = sums(262080, 87360, 262080, 87360);
    show_large(rt, ties)?;
    show_one_less(rt, ties)
}
