// The class map of a picture: the sides of all CTBs first, then a CTB at a time.
ghost use Rattle.std.specs.Prelude.{◌≡◌, length};
ghost use Rattle.alf_spec.specs.Input.{classes, classes_input};
ghost use Rattle.alf_spec.specs.Process.{class_map};
ghost use Rattle.alf_spec.specs.Faults.{fault};

use crate::ctbs::{Frame, Rooms, class_ctb};
use alf_classify::AREA;
use alf_math::grid::grid;
use alf_pieces::walks::CtbAxes;
use alf_sides::{CTBS, plan_sides, sides_at};
use alf_spec::Layout;

// The class map of an accepted picture.
pub fn class_map(layout: &Layout, luma: &[u16], map: &mut [u8])
    requires { fault classes (classes_input layout.now luma.now (length map.old)) ≡ 0 }
    ensures { map.new ≡ class_map layout.now luma.now }
{
    let picture = layout.picture;
    let grid = grid(picture);
    let mut sides: [u16; CTBS] = [0; CTBS];
    plan_sides(layout, grid, &mut sides);
    let frame = Frame { picture, grid };
    let mut rooms = Rooms {
        copy: [0; AREA],
        differences: [0; 4 * AREA],
    };
    for k in 0..grid.columns * grid.rows {
        let own = sides_at(&sides, k);
        let axes = CtbAxes::through(layout, grid, own, 4, k);
        class_ctb(frame, own, &axes, luma, &mut rooms, map);
    }
}
