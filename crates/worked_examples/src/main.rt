// Runs the worked examples P1 to P12 of paper 01 on the proved leaves, one line each; behind P8 the largest sums, for card 3, and P9 also
// with the line of card 4.
#![tactic(auto)]

mod classes;
mod positions;

ghost use Rattle.std.specs.Prelude.{◌^◌, ◌≤◌, ◌<◌, nat_abs};
ghost use Rattle.alf_math.specs.Integers.{ClipRange};

use alf_direction::direction::activity;
use alf_math::rounding::{filtered, rounded};
use alf_math::taps::tap;
use classes::sums;
use std::io;

// A number, and what comes of it.
fn show(rt: &impl Print, n: i32, r: i32) -> io::Result<()> {
    print!(rt; "  {n} -> {r}")
}

// A sum, rounded.
fn show_rounded(rt: &impl Print, sum: i32, shift: u32) -> io::Result<()>
    requires { (nat_abs sum ≤ 2 ^ 20) × (shift < 32) }
{
    show(rt, sum, rounded(sum, shift))
}

// V + H, and the activity at depth 10 with factor 2.
fn show_activity(rt: &impl Print, total: u32) -> io::Result<()>
    requires { total < 2 ^ 19 }
{
    let level = activity(total, 2, 10);
    print!(rt; "  {total} -> {level}")
}

// A clip, and sample 10 filtered with it: right 14, left 10, coefficient 11 alone set, to 64.
fn show_filtered(rt: &impl Print, c: i16) -> io::Result<()>
    requires { ClipRange c }
{
    show(
        rt,
        c as i32,
        filtered(10, tap(10, 64, c, 14, 10), 7, 8) as i32,
    )
}

fn main(rt: HostRuntime) -> io::Result<()> {
    print!(rt; "P1   rounded by shift 7:")?;
    show_rounded(&rt, -65, 7)?;
    show_rounded(&rt, -64, 7)?;
    show_rounded(&rt, 63, 7)?;
    show_rounded(&rt, 64, 7)?;
    print!(rt; "\nP2   rounded by shift 10:")?;
    show_rounded(&rt, 959, 10)?;
    show_rounded(&rt, 960, 10)?;
    print!(rt; "\nP3 ")?;
    classes::show_class(&rt, sums(0, 0, 0, 0), 8)?;
    print!(rt; "\nP4 ")?;
    classes::show_class(&rt, sums(10, 2, 4, 4), 8)?;
    print!(rt; "\nP5 ")?;
    classes::show_class(&rt, sums(9, 2, 4, 4), 8)?;
    print!(rt; "\nP6 ")?;
    classes::show_class(&rt, sums(3, 3, 8, 1), 8)?;
    print!(rt; "\nP7 ")?;
    classes::show_class(&rt, sums(5, 0, 7, 0), 8)?;
    print!(rt; "\nP8   activity of V + H, depth 10:")?;
    show_activity(&rt, 3839)?;
    show_activity(&rt, 3840)?;
    print!(rt; "\n     largest sums, depth 12:\n")?;
    classes::show_largest(&rt)?;
    classes::show_ties(&rt)?;
    print!(rt; "P9   clip positions, CTB of 32:")?;
    positions::show_below(&rt, 4, 23)?;
    positions::show_below(&rt, 4, 24)?;
    positions::show_above(&rt, 4, 28)?;
    print!(rt; "\n     for chroma of full height:")?;
    positions::show_below(&rt, 2, 25)?;
    positions::show_below(&rt, 2, 26)?;
    positions::show_above(&rt, 2, 29)?;
    positions::show_above(&rt, 2, 30)?;
    print!(rt; "\nP10  read from the CTB at (32,32):")?;
    positions::show_corner(&rt)?;
    print!(rt; "\nP11  line rule of the CTB at row 32:")?;
    positions::show_line_rule(&rt, 64)?;
    positions::show_line_rule(&rt, 56)?;
    print!(rt; "\nP12  filtered sample by clip:")?;
    show_filtered(&rt, 256)?;
    show_filtered(&rt, 3)?;
    show_filtered(&rt, 2)?;
    print!(rt; "\n")
}
