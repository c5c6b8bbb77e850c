// The direction test under C names, for the host's tests alone, which hold it against a wide multiplication
// (host/compare/tests/direction.rs). The C interface of the library is alf_c.
#![tactic(auto)]

ghost use Rattle.std.specs.Prelude.{◌≡◌, cond, ◌*◌, ltb};
ghost use Rattle.alf_spec.specs.Classes.{class_of_sums};
ghost use Rattle.alf_spec.specs.Process.{class_number};
ghost use Rattle.direction_c.specs.FourSums.{sums_of, has_class};

use alf_direction::direction::class_of_sums;
use alf_spec::Sums;

// Whether a * b < c * d.
#[unsafe(no_mangle)]
pub extern "C" fn direction_product_less(a: u32, b: u32, c: u32, d: u32) -> bool
    ensures { result ≡ ltb (a * b) (c * d) }
{
    alf_direction::products::product_less(a, b, c, d)
}

// Whether the sums are below 2^18, as those of a picture are, the factor at most 3 and the depth 8 to 12.
#[tactic(auto, unfolding(crate::specs::FourSums::has_class))]
fn has_class(s: Sums, factor: u32, depth: u32) -> bool
    ensures { result ≡ has_class s.v s.h s.d0 s.d1 factor depth }
{
    (((s.v < 0x4_0000) & (s.h < 0x4_0000)) & ((s.d0 < 0x4_0000) & (s.d1 < 0x4_0000)))
        & ((factor < 4) & ((7 < depth) & (depth < 13)))
}

// The number of the class of a block whose window has these sums, or 255.
#[tactic(auto, using(alf_direction::proofs::Gradients::class_range), unfolding(crate::specs::FourSums::has_class))]
#[unsafe(no_mangle)]
pub extern "C" fn direction_class(v: u32, h: u32, d0: u32, d1: u32, factor: u32, depth: u32) -> u8
    ensures { result ≡ cond (has_class v h d0 d1 factor depth) (class_number (class_of_sums depth factor (sums_of v h d0 d1))) 255 }
{
    let s = Sums {
        v: v,
        h: h,
        d0: d0,
        d1: d1,
    };
    if has_class(s, factor, depth) {
        let class = class_of_sums(s, factor, depth);
        (class.filter + 32 * class.transpose) as u8
    } else {
        255
    }
}
