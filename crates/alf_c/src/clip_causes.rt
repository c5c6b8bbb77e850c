// The causes at the four sides of a luma sample (02, card 1).
ghost use Rattle.std.specs.Prelude.{◌≡◌, cond, eqb, length};
ghost use Rattle.alf_spec.specs.Input.{picture_of, layout_of};
ghost use Rattle.alf_spec.specs.Faults.{causes_fault};
ghost use Rattle.alf_spec.specs.Causes.{causes_at};
ghost use Rattle.alf_spec.specs.Answers.{cause_numbers, kept};
ghost use Rattle.alf_c.specs.Calls.{without_room};

use alf::{cause_number, fault_number, number};
use alf_spec::{Layout, Picture, SideCauses};

// What is returned where the list has no room for four causes, which is fault 5: `number` is that of the rest of the input, and goes
// before it where it is 1 to 4.
fn without_room(number: u8) -> u8
    ensures { result ≡ without_room number }
{
    if (0 < number) & (number < 5) {
        number
    } else {
        5
    }
}

// The causes by number: top, bottom, left and right.
fn cause_numbers(named: SideCauses) -> [u8; 4]
    ensures { result ≡ cause_numbers named }
{
    [
        cause_number(named.top),
        cause_number(named.bottom),
        cause_number(named.left),
        cause_number(named.right),
    ]
}

// The number of the lowest fault, and `causes` stays as it was; or 0, and it has the causes on the four sides of the luma sample at column
// x and row y.
#[unsafe(no_mangle)]
pub extern "C" fn alf_clip_causes(
    width: u32,
    height: u32,
    ctb_log2: u8,
    bit_depth: u8,
    chroma_format: u8,
    slice_count: u32,
    across_tiles: bool,
    across_slices: bool,
    virtual_columns: &[u16],
    virtual_rows: &[u16],
    tile_columns: &[u8],
    tile_rows: &[u8],
    slice_map: &[u8],
    subpic_map: &[u8],
    subpic_across: &[u8],
    x: u32,
    y: u32,
    causes: &mut [u8],
) -> u8
    ensures { let picture = picture_of width height ctb_log2 bit_depth chroma_format slice_count across_tiles across_slices in
        let layout = layout_of picture virtual_columns.now virtual_rows.now tile_columns.now
        tile_rows.now slice_map.now subpic_map.now subpic_across.now in
        let fault = causes_fault layout (eqb (length causes.old) 4) x y in
        (result ≡ fault) × (causes.new ≡ kept fault (cause_numbers (causes_at layout x y)) causes.old) }
{
    let layout = Layout {
        picture: Picture {
            width,
            height,
            ctb_log2,
            bit_depth,
            chroma_format,
            slice_count,
            across_tiles,
            across_slices,
        },
        virtual_columns,
        virtual_rows,
        tile_columns,
        tile_rows,
        slice_map,
        subpic_map,
        subpic_across,
    };
    let answer = alf::clip_causes(&layout, x, y);
    if causes.len() != 4 {
        return without_room(number(&answer));
    }
    match answer {
        Ok(named) => {
            causes.copy_from_slice(&cause_numbers(named));
            0
        }
        Err(fault) => fault_number(fault),
    }
}
