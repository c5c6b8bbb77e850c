// Products of 32-bit numbers, compared from 16-bit halves: the receiver card multiplies 16 bits by 16 into 32 and has nothing wider (02,
// card 3). No number here is wider than 32 bits, and the types show that no factor is wider than 16.
ghost use Rattle.std.specs.Prelude.{◌≡◌, ◌+◌, ◌*◌, ◌/◌, ◌%◌, ◌^◌, ◌≤◌, ltb};

// A product of two 32-bit numbers, as two words: high * 2^32 + low.
#[derive(Clone, Copy)]
struct Product {
    high: u32,
    low: u32,
}

// A half has a function of its own, and no cast where it is used: its result shows that a factor has 16 bits.
fn high_half(n: u32) -> u16
    ensures { result ≡ n / 2 ^ 16 }
{
    (n >> 16) as u16
}

fn low_half(n: u32) -> u16
    ensures { result ≡ n % 2 ^ 16 }
{
    (n & 0xffff) as u16
}

// The one multiplication of the direction test. Its largest product leaves room for a carry of 16 bits.
fn times(a: u16, b: u16) -> u32
    ensures { (result ≡ a * b) × (result ≤ 0xffff * 0xffff) }
{
    (a as u32) * (b as u32)
}

// By hand in base 2^16, column by column: what a column carries goes into the next one up. The middle column takes its two products one
// after the other, so that no sum needs a 33rd bit.
fn multiply(a: u32, b: u32) -> Product
    ensures { result.high * 2 ^ 32 + result.low ≡ a * b }
{
    let a1 = high_half(a);
    let a0 = low_half(a);
    let b1 = high_half(b);
    let b0 = low_half(b);
    let first = times(a0, b0);
    let cross = times(a1, b0) + (first >> 16);
    let middle = times(a0, b1) + (cross & 0xffff);
    Product {
        high: times(a1, b1) + (cross >> 16) + (middle >> 16),
        low: (middle << 16) + (first & 0xffff),
    }
}

// Whether one product is less than another: by their high words, and by their low ones where those are equal. It is no derived order, since
// all that decides a class is to be read here.
fn words_less(left: Product, right: Product) -> bool
    ensures { result ≡ ltb (left.high * 2 ^ 32 + left.low) (right.high * 2 ^ 32 + right.low) }
{
    (left.high < right.high) | ((left.high == right.high) & (left.low < right.low))
}

// Whether a * b < c * d, for any four numbers. Where all have 16 bits, as the sums of every picture of up to 10 bits do, a product is one
// multiplication.
pub fn product_less(a: u32, b: u32, c: u32, d: u32) -> bool
    ensures { result ≡ ltb (a * b) (c * d) }
{
    if ((a < 0x1_0000) & (b < 0x1_0000)) & ((c < 0x1_0000) & (d < 0x1_0000)) {
        times(a as u16, b as u16) < times(c as u16, d as u16)
    } else {
        words_less(multiply(a, b), multiply(c, d))
    }
}
