// Every operation on the example picture, and what it leaves, for the example programs.
#![tactic(auto)]

use alf::number;
use alf_print::{print_isolated, print_map, print_outcome, print_plane};
use alf_spec::{FilterInput, Layout};
use example_pictures::drawing::draw_chroma;
use example_pictures::layout::{
    SLICE_MAP, SUBPIC_ACROSS, SUBPIC_MAP, TILES, VIRTUAL_COLUMNS, VIRTUAL_ROWS, picture,
};
use example_pictures::tables::{
    CTB_LIST, CTB_PARAMS, SLICE_PARAMS, fill_fixed_filters, fill_fixed_map,
};
use std::io;
use std::io::AsBytes;

// The picture with its boundary tables.
fn layout() -> Layout<'static> {
    Layout {
        picture: picture(),
        virtual_columns: &VIRTUAL_COLUMNS,
        virtual_rows: &VIRTUAL_ROWS,
        tile_columns: &TILES,
        tile_rows: &TILES,
        slice_map: &SLICE_MAP,
        subpic_map: &SUBPIC_MAP,
        subpic_across: &SUBPIC_ACROSS,
    }
}

// What the luma filter is given of the picture, with these parameters of the CTBs.
fn luma_input<'a>(
    bank: &'a [i16],
    ctb_params: &'a [u8],
    fixed_filters: &'a [i16],
    fixed_map: &'a [u8],
    luma: &'a [u16],
) -> FilterInput<'a> {
    FilterInput {
        layout: layout(),
        slice_params: &SLICE_PARAMS,
        bank,
        ctb_params,
        ctb_list: &CTB_LIST,
        fixed_filters,
        fixed_map,
        luma,
        chroma: &[],
    }
}

// What the chroma filter and the cross-component filter are given of the picture.
fn chroma_input<'a>(bank: &'a [i16], luma: &'a [u16], chroma: &'a [u16]) -> FilterInput<'a> {
    FilterInput {
        layout: layout(),
        slice_params: &SLICE_PARAMS,
        bank,
        ctb_params: &CTB_PARAMS,
        ctb_list: &CTB_LIST,
        fixed_filters: &[],
        fixed_map: &[],
        luma,
        chroma,
    }
}

// The class map of a picture, so many blocks a row.
pub fn show_classes<T: AsBytes + Drop>(
    rt: &impl Print,
    text: T,
    layout: &Layout,
    luma: &[u16],
    map: &mut [u8],
    columns: usize,
) -> io::Result<()> {
    let answer = alf::classes(layout, luma, map);
    print_outcome(rt, text, number(&answer))?;
    print_map(rt, map, columns)
}

// The luma filter of the picture, with these parameters of the CTBs.
fn show_luma(
    rt: &impl Print,
    text: &str,
    bank: &[i16],
    ctb_params: &[u8],
    luma: &[u16],
    output: &mut [u16],
) -> io::Result<()> {
    let mut fixed_filters = [0i16; 768];
    let mut fixed_map = [0u8; 400];
    fill_fixed_filters(&mut fixed_filters);
    fill_fixed_map(&mut fixed_map);
    let input = luma_input(bank, ctb_params, &fixed_filters, &fixed_map, luma);
    let answer = alf::luma(&input, output);
    print_outcome(rt, text, number(&answer))
}

// The chroma filter of a component.
fn show_chroma(
    rt: &impl Print,
    component: u8,
    bank: &[i16],
    chroma: &[u16],
    output: &mut [u16],
) -> io::Result<()> {
    let answer = alf::chroma(component, &chroma_input(bank, &[], chroma), output);
    print_outcome(rt, " filtered", number(&answer))
}

// The cross-component filter of a component.
fn show_corrected(
    rt: &impl Print,
    component: u8,
    bank: &[i16],
    luma: &[u16],
    chroma: &[u16],
    output: &mut [u16],
) -> io::Result<()> {
    let answer = alf::cross_component(component, &chroma_input(bank, luma, chroma), output);
    print_outcome(rt, " corrected from luma", number(&answer))
}

// Both filters of a component that is drawn with bars in so many columns.
fn show_component(
    rt: &impl Print,
    component: u8,
    name: &str,
    columns: usize,
    bank: &[i16],
    luma: &[u16],
) -> io::Result<()> {
    let mut chroma = [0u16; 400];
    let mut filtered = [0u16; 400];
    draw_chroma(columns, &mut chroma);
    println!(rt; "{name} before")?;
    print_plane(rt, &chroma, 20)?;
    print!(rt; "{name}")?;
    show_chroma(rt, component, bank, &chroma, &mut filtered)?;
    print_plane(rt, &filtered, 20)?;
    print!(rt; "{name}")?;
    show_corrected(rt, component, bank, luma, &filtered, &mut chroma)?;
    print_plane(rt, &chroma, 20)
}

// A region is five rows of five 8 by 8 blocks.
fn show_isolation(rt: &impl Print, text: &str, region: &[u8]) -> io::Result<()> {
    let answer = alf::isolated(&layout(), region);
    print_isolated(rt, text, number(&answer), answer)
}

// Two regions, of which one is isolated.
fn show_regions(rt: &impl Print) -> io::Result<()> {
    show_isolation(
        rt,
        "region: the first CTB left of the virtual column",
        b"\x01\x01\x00\x00\x00\x01\x01\x00\x00\x00\x01\x01\x00\x00\x00\x01\x01\x00\x00\x00\x00\x00\x00\x00\x00",
    )?;
    show_isolation(
        rt,
        "region: the last CTB",
        b"\x00\x00\x00\x00\x00\x00\x00\x00\x00\x00\x00\x00\x00\x00\x00\x00\x00\x00\x00\x00\x00\x00\x00\x00\x01",
    )
}

// The first CTB with luma set 17, the second APS of a slice that has one.
fn show_rejected(rt: &impl Print, bank: &[i16], luma: &[u16]) -> io::Result<()> {
    let mut output = [7u16; 1600];
    let mut params = CTB_PARAMS;
    params[3] = 17;
    show_luma(
        rt,
        "luma with a set that the slice does not have",
        bank,
        &params,
        luma,
        &mut output,
    )?;
    println!(rt; "the first row of its output, as it was")?;
    print_plane(rt, &output[0..40], 40)
}

// The filters of luma, of Cb and of Cr.
fn show_filters(rt: &impl Print, bank: &[i16], luma: &[u16]) -> io::Result<()> {
    let mut output = [0u16; 1600];
    show_luma(rt, "luma filtered", bank, &CTB_PARAMS, luma, &mut output)?;
    print_plane(rt, &output, 40)?;
    show_component(rt, 0, "Cb", 18, bank, luma)?;
    show_component(rt, 1, "Cr", 11, bank, luma)
}

// All operations, in turn, and last an input that is rejected.
pub fn show_picture(rt: &impl Print, bank: &[i16], luma: &[u16], map: &mut [u8]) -> io::Result<()> {
    println!(rt; "luma before")?;
    print_plane(rt, luma, 40)?;
    show_classes(
        rt,
        "class:transpose of each 4 by 4 block",
        &layout(),
        luma,
        map,
        10,
    )?;
    show_filters(rt, bank, luma)?;
    show_regions(rt)?;
    show_rejected(rt, bank, luma)
}
