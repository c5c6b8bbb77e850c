// The class map of a picture with four kinds of texture: without boundaries, with a virtual column, and one that is rejected.
use alf_spec::Layout;
use example_pictures::textures::{draw_textures, textured_picture};
use example_runs::show_classes;
use std::io;

// The map with these virtual columns: one tile, slice and subpicture, of two by two CTBs.
fn show_map(
    rt: &impl Print,
    text: &str,
    virtual_columns: &[u16],
    luma: &[u16],
    map: &mut [u8],
) -> io::Result<()> {
    let layout = Layout {
        picture: textured_picture(),
        virtual_columns,
        virtual_rows: &[],
        tile_columns: &[0; 2],
        tile_rows: &[0; 2],
        slice_map: &[0; 4],
        subpic_map: &[0; 4],
        subpic_across: &[1; 64],
    };
    show_classes(rt, text, &layout, luma, map, 16)
}

pub fn show(rt: &impl Print) -> io::Result<()> {
    let mut luma = [0u16; 3072];
    let mut map = [255u8; 192];
    draw_textures(&mut luma);
    show_map(
        rt,
        "class:transpose of each 4 by 4 block: flat, upright bars, slanted bars, level bars",
        &[],
        &luma,
        &mut map,
    )?;
    show_map(
        rt,
        "the same with a virtual column at 24",
        &[24],
        &luma,
        &mut map,
    )?;
    show_map(
        rt,
        "a virtual column at 28 is rejected, and the map stays as it was",
        &[28],
        &luma,
        &mut map,
    )
}
