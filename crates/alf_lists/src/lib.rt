// Lists that are written part by part: what a loop has written so far, and what the whole list then holds (specs/, proofs/). All loops of
// the filters that write a plane, a map or a table stand on these laws; they know nothing of pictures.
#![tactic(auto)]

ghost use Rattle.std.specs.Prelude.{◌+◌, ◌≤◌, length, pos};
ghost use Rattle.alf_lists.specs.Regions.{between};
ghost use Rattle.alf_lists.specs.Filled.{Filled, same};

// One number in the n places from `at` on.
pub fn fill(list: &mut [i16], at: usize, n: usize, v: i16)
    requires { at + n ≤ length list.old }
    ensures { Filled (pos 0) list.old (between at n) (same v) list.new }
{
    list[at..at + n].fill(v);
}
