// The class map: the class and the transpose of every 4 by 4 luma block.
#![tactic(auto)]

ghost use Rattle.std.specs.Prelude.{length};
ghost use Rattle.alf_spec.specs.Input.{classes as classes_of, classes_input};
ghost use Rattle.alf_spec.specs.Answers.{number_of};
ghost use Rattle.alf_spec.specs.Runs.{Ran};

use alf_class_map::class_map;
use alf_spec::{Fault, Layout};
use alf_validate::judge_classes;

// The lowest fault of the layout, the lengths or the samples; or the map, with a number for each 4 by 4 block, row by row: class + 32 *
// transpose. A map that is not of that length is a fault, and where there is a fault the map stays as it was.
#[tactic(auto, unfolding(alf_spec::specs::Process::result_of))]
pub fn classes(layout: &Layout, luma: &[u16], map: &mut [u8]) -> Result<(), Fault>
    ensures { let input = classes_input layout.now luma.now (length map.old) in
        Ran classes_of input (number_of result) map.old map.new }
{
    judge_classes(layout, luma, map.len())?;
    class_map(layout, luma, map);
    Ok(())
}
