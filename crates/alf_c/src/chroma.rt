// The chroma filter of a component, 0 (Cb) or 1 (Cr).
ghost use Rattle.std.specs.Prelude.{length};
ghost use Rattle.alf_spec.specs.Input.{chroma as chroma_of, picture_of, layout_of, chroma_input};
ghost use Rattle.alf_spec.specs.Runs.{Ran};

use alf::number;
use alf_spec::{FilterInput, Layout, Picture};

// The number of the lowest fault, and the output stays as it was; or 0, and the output is the result.
#[unsafe(no_mangle)]
pub extern "C" fn alf_chroma(
    width: u32,
    height: u32,
    ctb_log2: u8,
    bit_depth: u8,
    chroma_format: u8,
    slice_count: u32,
    across_tiles: bool,
    across_slices: bool,
    virtual_columns: &[u16],
    virtual_rows: &[u16],
    tile_columns: &[u8],
    tile_rows: &[u8],
    slice_map: &[u8],
    subpic_map: &[u8],
    subpic_across: &[u8],
    component: u8,
    slice_params: &[u8],
    bank: &[i16],
    ctb_params: &[u8],
    ctb_list: &[u32],
    chroma: &[u16],
    output: &mut [u16],
) -> u8
    ensures { let picture = picture_of width height ctb_log2 bit_depth chroma_format slice_count across_tiles across_slices in
        let layout = layout_of picture virtual_columns.now virtual_rows.now tile_columns.now
        tile_rows.now slice_map.now subpic_map.now subpic_across.now in
        let input = chroma_input layout slice_params.now bank.now ctb_params.now
        ctb_list.now chroma.now
        (length output.old) in
        Ran (chroma_of component) input result output.old output.new }
{
    let layout = Layout {
        picture: Picture {
            width,
            height,
            ctb_log2,
            bit_depth,
            chroma_format,
            slice_count,
            across_tiles,
            across_slices,
        },
        virtual_columns,
        virtual_rows,
        tile_columns,
        tile_rows,
        slice_map,
        subpic_map,
        subpic_across,
    };
    let input = FilterInput {
        layout,
        slice_params,
        bank,
        ctb_params,
        ctb_list,
        fixed_filters: &[],
        fixed_map: &[],
        luma: &[],
        chroma,
    };
    number(&alf::chroma(component, &input, output))
}
