// The order of the taps by transpose, a constant table of 8.8.5.2.
ghost use Rattle.std.specs.Prelude.{◌≡◌, ◌<◌};
ghost use Rattle.alf_spec.specs.Luma.{tap_order};

// idx of (1460) to (1463), a row for each transpose
const TAP_ORDER: [[u8; 12]; 4] = [
    [0, 1, 2, 3, 4, 5, 6, 7, 8, 9, 10, 11],
    [9, 4, 10, 8, 1, 5, 11, 7, 3, 0, 2, 6],
    [0, 3, 2, 1, 8, 7, 6, 5, 4, 9, 10, 11],
    [9, 8, 10, 4, 3, 7, 11, 5, 1, 0, 2, 6],
];

// Which coefficient and clip tap j uses.
#[tactic(auto, using(alf_spec::proofs::TapOrder::each_below), unfolding(alf_spec::specs::Luma::tap_order))]
pub fn tap_order(transpose: usize, j: usize) -> usize
    requires { (transpose < 4) × (j < 12) }
    ensures { (result ≡ tap_order transpose j) × (result < 12) }
{
    TAP_ORDER[transpose][j] as usize
}
