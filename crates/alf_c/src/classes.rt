// The class map: one number for each 4 by 4 luma block, class + 32 * transpose.
ghost use Rattle.std.specs.Prelude.{length};
ghost use Rattle.alf_spec.specs.Input.{classes as classes_of, picture_of, layout_of, classes_input};
ghost use Rattle.alf_spec.specs.Runs.{Ran};

use alf::number;
use alf_spec::{Layout, Picture};

// The number of the lowest fault, and the output stays as it was; or 0, and the output is the result.
#[unsafe(no_mangle)]
pub extern "C" fn alf_classes(
    width: u32,
    height: u32,
    ctb_log2: u8,
    bit_depth: u8,
    chroma_format: u8,
    slice_count: u32,
    across_tiles: bool,
    across_slices: bool,
    virtual_columns: &[u16],
    virtual_rows: &[u16],
    tile_columns: &[u8],
    tile_rows: &[u8],
    slice_map: &[u8],
    subpic_map: &[u8],
    subpic_across: &[u8],
    luma: &[u16],
    class_map: &mut [u8],
) -> u8
    ensures { let picture = picture_of width height ctb_log2 bit_depth chroma_format slice_count across_tiles across_slices in
        let layout = layout_of picture virtual_columns.now virtual_rows.now tile_columns.now
        tile_rows.now slice_map.now subpic_map.now subpic_across.now in
        let input = classes_input layout luma.now
        (length class_map.old) in
        Ran classes_of input result class_map.old class_map.new }
{
    let layout = Layout {
        picture: Picture {
            width,
            height,
            ctb_log2,
            bit_depth,
            chroma_format,
            slice_count,
            across_tiles,
            across_slices,
        },
        virtual_columns,
        virtual_rows,
        tile_columns,
        tile_rows,
        slice_map,
        subpic_map,
        subpic_across,
    };
    number(&alf::classes(&layout, luma, class_map))
}
