// Runs every operation on a built-in picture and prints the planes before and after, then an input that is rejected; then the class maps of
// another picture.
#![tactic(auto)]

mod class_maps;
mod filtered;

use std::io;

fn main(rt: HostRuntime) -> io::Result<()> {
    filtered::show(&rt)?;
    class_maps::show(&rt)
}
