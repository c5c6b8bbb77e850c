// A small input of the luma filter in which the causes from one number to another are broken.
ghost use Rattle.std.specs.Prelude.{◌<◌};

use alf::number;
use alf_spec::{Fault, Filter, FilterInput, Layout, Picture};
use alf_validate::{judge_filter, judge_isolation};
use example_pictures::layout::plain;
use std::io;

// Whether cause n is one of those to break.
fn breaks(n: u32, first: u32, last: u32) -> bool {
    (first <= n) & (n <= last)
}

// 1 to 5. Sound, it has two by two CTBs of 32.
fn picture(first: u32, last: u32) -> Picture {
    let mut picture = plain(40, 40, 5);
    if breaks(1, first, last) {
        picture.width = 44;
    }
    if breaks(2, first, last) {
        picture.ctb_log2 = 8;
    }
    if breaks(3, first, last) {
        picture.bit_depth = 13;
    }
    if breaks(4, first, last) {
        picture.chroma_format = 4;
    }
    if breaks(5, first, last) {
        picture.slice_count = 257;
    }
    picture
}

// What stands in a table: this where cause n is one of those to break, else the other.
fn pick(n: u32, first: u32, last: u32, broken: u8, sound: u8) -> u8 {
    if breaks(n, first, last) {
        broken
    } else {
        sound
    }
}

// 6 to 13, in the tables and the plane of the luma filter; with this parameter of the last CTB, this last fixed coefficient and this last
// entry of the fixed map.
pub fn judged(
    first: u32,
    last: u32,
    at: usize,
    parameter: u8,
    coefficient: i16,
    entry: u8,
) -> Result<(), Fault>
    requires { at < 8 }
{
    let columns = [pick(6, first, last, 12, 8) as u16];
    let rows = [16u16];
    let tiles = [0u8, pick(7, first, last, 2, 0)];
    let slices = [0u8, 0, 0, pick(8, first, last, 1, 0)];
    let subpictures = [0u8, 0, 0, pick(9, first, last, 1, 0)];
    let across = [1u8; 64];
    let mut slice_params = [0u8; 11];
    slice_params[0] = pick(10, first, last, 8, 7);
    let mut bank = [0i16; 6016];
    bank[0] = pick(11, first, last, 128, 127) as i16;
    let mut ctb_params = [0u8; 32];
    ctb_params[24 + at] = parameter;
    let addresses = [3u32, pick(13, first, last, 4, 0) as u32];
    let mut fixed_filters = [0i16; 768];
    fixed_filters[767] = coefficient;
    let mut fixed_map = [0u8; 400];
    fixed_map[399] = entry;
    let mut luma = [0u16; 1600];
    luma[1599] = pick(12, first, last, 1, 0) as u16 * 255 + 1;
    let input = FilterInput {
        layout: Layout {
            picture: picture(first, last),
            virtual_columns: &columns,
            virtual_rows: &rows,
            tile_columns: &tiles,
            tile_rows: &tiles,
            slice_map: &slices,
            subpic_map: &subpictures,
            subpic_across: &across,
        },
        slice_params: &slice_params,
        bank: &bank,
        ctb_params: &ctb_params,
        ctb_list: &addresses,
        fixed_filters: &fixed_filters,
        fixed_map: &fixed_map,
        luma: &luma,
        chroma: &[],
    };
    judge_filter(Filter::Luma, &input, 1600)
}

// Cause 14, of the isolation test: a region whose last number is this.
fn judged_region(last: u8) -> Result<(), Fault> {
    let columns = [8u16];
    let tiles = [0u8; 2];
    let maps = [0u8; 4];
    let across = [1u8; 64];
    let mut region = [0u8; 25];
    region[24] = last;
    let layout = Layout {
        picture: picture(15, 15),
        virtual_columns: &columns,
        virtual_rows: &columns,
        tile_columns: &tiles,
        tile_rows: &tiles,
        slice_map: &maps,
        subpic_map: &maps,
        subpic_across: &across,
    };
    judge_isolation(&layout, &region)
}

// What is answered where this cause alone is broken, and where all from it to 13 are.
fn show_number(rt: &impl Print, n: u32) -> io::Result<()> {
    let alone = number(&judged(n, n, 0, 0, 0, 0));
    let all = number(&judged(n, 13, 0, 0, 0, 0));
    println!(rt; "  {n} -> {alone}, {all}")
}

// A line for each number from 1 to 13.
fn show_numbers(rt: &impl Print) -> io::Result<()> {
    for n in 1..=13 {
        show_number(rt, n)?;
    }
    Ok(())
}

// A line for each number, and one for what is sound.
pub fn show_all(rt: &impl Print) -> io::Result<()> {
    show_numbers(rt)?;
    let region = number(&judged_region(2));
    println!(rt; "  14 -> {region}")?;
    let sound = number(&judged(15, 15, 0, 0, 0, 0));
    let sound_region = number(&judged_region(1));
    println!(rt; "  none -> {sound}, {sound_region}")
}
