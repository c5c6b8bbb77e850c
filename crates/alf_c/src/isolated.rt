// The isolation test (01: shut test of an area).
ghost use Rattle.std.specs.Prelude.{◌≡◌};
ghost use Rattle.alf_spec.specs.Input.{picture_of, layout_of};
ghost use Rattle.alf_spec.specs.Faults.{isolation_fault};
ghost use Rattle.alf_spec.specs.Isolation.{isolated as isolated_by};
ghost use Rattle.alf_spec.specs.Answers.{kept};
ghost use Rattle.alf_c.specs.Calls.{isolated_byte};

use alf::fault_number;
use alf_spec::{Layout, Picture};

// The number of the lowest fault, and `isolated` stays as it was; or 0, and it is 1 where no open step leads out of the region, else 0.
#[unsafe(no_mangle)]
pub extern "C" fn alf_isolated(
    width: u32,
    height: u32,
    ctb_log2: u8,
    bit_depth: u8,
    chroma_format: u8,
    slice_count: u32,
    across_tiles: bool,
    across_slices: bool,
    virtual_columns: &[u16],
    virtual_rows: &[u16],
    tile_columns: &[u8],
    tile_rows: &[u8],
    slice_map: &[u8],
    subpic_map: &[u8],
    subpic_across: &[u8],
    region: &[u8],
    isolated: &mut u8,
) -> u8
    ensures { let picture = picture_of width height ctb_log2 bit_depth chroma_format slice_count across_tiles across_slices in
        let layout = layout_of picture virtual_columns.now virtual_rows.now tile_columns.now
        tile_rows.now slice_map.now subpic_map.now subpic_across.now in
        let fault = isolation_fault layout region.now in
        (result ≡ fault)
        × (isolated.new ≡ kept fault (isolated_byte (isolated_by layout region.now)) isolated.old) }
{
    let layout = Layout {
        picture: Picture {
            width,
            height,
            ctb_log2,
            bit_depth,
            chroma_format,
            slice_count,
            across_tiles,
            across_slices,
        },
        virtual_columns,
        virtual_rows,
        tile_columns,
        tile_rows,
        slice_map,
        subpic_map,
        subpic_across,
    };
    match alf::isolated(&layout, region) {
        Ok(inside) => {
            *isolated = u8::from(inside);
            0
        }
        Err(fault) => fault_number(fault),
    }
}
