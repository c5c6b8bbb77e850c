// The constant tables of 8.8.5.3: an activity's level, and the transpose of a block by its directions.
ghost use Rattle.std.specs.Prelude.{◌≡◌, ◌<◌, get_or};
ghost use Rattle.alf_spec.specs.Classes.{activity_table, transpose_table};

// varTab of (1498)
const ACTIVITY: [u8; 16] = [0, 1, 2, 2, 2, 2, 2, 3, 3, 3, 3, 3, 3, 3, 3, 4];

// transposeTable, above (1500)
const TRANSPOSE: [u8; 8] = [0, 1, 0, 2, 2, 3, 1, 3];

pub(crate) fn activity_entry(k: u32) -> u8
    requires { k < 16 }
    ensures { result ≡ get_or activity_table k 0 }
{
    ACTIVITY[k as usize]
}

pub(crate) fn transpose_entry(k: u32) -> u8
    requires { k < 8 }
    ensures { result ≡ get_or transpose_table k 0 }
{
    TRANSPOSE[k as usize]
}
