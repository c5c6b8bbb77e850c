// A row for each thing that shares its number with others: the number answered where it alone is broken, beside a sound neighbour.
ghost use Rattle.std.specs.Prelude.{◌<◌};

use crate::damaged::judged;
use alf::number;
use alf_spec::{Fault, Filter, FilterInput, Layout, Picture};
use alf_validate::{judge_filter, judge_isolation};
use example_pictures::layout::plain;
use std::io;

fn show_answer(rt: &impl Print, text: &str, answer: Result<(), Fault>) -> io::Result<()> {
    let number = number(&answer);
    println!(rt; "  {text} -> {number}")
}

// The isolation test of a picture with CTBs of 32, in one slice and subpicture.
fn show_layout(
    rt: &impl Print,
    text: &str,
    width: u32,
    height: u32,
    virtual_columns: &[u16],
    tile_columns: &[u8],
    tile_rows: &[u8],
    ctbs: &[u8],
    region: &[u8],
) -> io::Result<()> {
    let layout = Layout {
        picture: plain(width, height, 5),
        virtual_columns,
        virtual_rows: &[],
        tile_columns,
        tile_rows,
        slice_map: ctbs,
        subpic_map: ctbs,
        subpic_across: &[1; 64],
    };
    show_answer(rt, text, judge_isolation(&layout, region))
}

// Five CTBs side by side, with three virtual columns and with a fourth.
fn show_virtual_columns(rt: &impl Print) -> io::Result<()> {
    show_layout(
        rt,
        "three virtual columns",
        160,
        8,
        &[8, 40, 72],
        &[0; 5],
        &[0; 1],
        &[0; 5],
        &[0; 20],
    )?;
    show_layout(
        rt,
        "four virtual columns",
        160,
        8,
        &[8, 40, 72, 104],
        &[0; 5],
        &[0; 1],
        &[0; 5],
        &[0; 20],
    )
}

// Two by two CTBs of one tile column, whose tile rows are these.
fn show_tile_rows(rt: &impl Print, text: &str, tile_rows: &[u8], region: &[u8]) -> io::Result<()> {
    show_layout(rt, text, 40, 40, &[], &[0; 2], tile_rows, &[0; 4], region)
}

// The luma filter of two by two CTBs under chroma mark 0, with this parameter of the last CTB, this last fixed coefficient and this last
// entry of the fixed map, and nothing else broken.
fn show_luma(
    rt: &impl Print,
    text: &str,
    at: usize,
    parameter: u8,
    coefficient: i16,
    entry: u8,
) -> io::Result<()>
    requires { at < 8 }
{
    show_answer(rt, text, judged(15, 15, at, parameter, coefficient, entry))
}

// The Cb filter of one CTB in 4:2:0, whose last chroma sample is this.
fn show_chroma(rt: &impl Print, text: &str, sample: u16) -> io::Result<()> {
    let mut chroma = [0u16; 16];
    chroma[15] = sample;
    let input = FilterInput {
        layout: Layout {
            picture: Picture {
                chroma_format: 1,
                ..plain(8, 8, 5)
            },
            virtual_columns: &[],
            virtual_rows: &[],
            tile_columns: &[0; 1],
            tile_rows: &[0; 1],
            slice_map: &[0; 1],
            subpic_map: &[0; 1],
            subpic_across: &[1; 64],
        },
        slice_params: &[0; 11],
        bank: &[0; 6016],
        ctb_params: &[0; 8],
        ctb_list: &[],
        fixed_filters: &[],
        fixed_map: &[],
        luma: &[],
        chroma: &chroma,
    };
    show_answer(rt, text, judge_filter(Filter::Chroma(0), &input, 16))
}

// Of the CTB parameters under chroma mark 0 only the luma flag and the luma set may be other than 0.
fn show_parameters(rt: &impl Print) -> io::Result<()> {
    show_luma(rt, "a luma flag under chroma mark 0", 0, 1, 0, 0)?;
    show_luma(rt, "a Cb flag", 1, 1, 0, 0)?;
    show_luma(rt, "a Cr flag", 2, 1, 0, 0)?;
    show_luma(rt, "a luma set", 3, 15, 0, 0)?;
    show_luma(rt, "a Cb alternative", 4, 1, 0, 0)?;
    show_luma(rt, "a Cr alternative", 5, 1, 0, 0)?;
    show_luma(rt, "a Cb cross-component index", 6, 1, 0, 0)?;
    show_luma(rt, "a Cr cross-component index", 7, 1, 0, 0)
}

// The ranges of fixed coefficients and of the fixed map's entries.
fn show_fixed(rt: &impl Print) -> io::Result<()> {
    show_luma(rt, "fixed coefficient -128", 0, 0, -128, 0)?;
    show_luma(rt, "fixed coefficient -129", 0, 0, -129, 0)?;
    show_luma(rt, "fixed coefficient 127", 0, 0, 127, 0)?;
    show_luma(rt, "fixed coefficient 128", 0, 0, 128, 0)?;
    show_luma(rt, "fixed map entry 63", 0, 0, 0, 63)?;
    show_luma(rt, "fixed map entry 64", 0, 0, 0, 64)
}

pub fn show_rows(rt: &impl Print) -> io::Result<()> {
    show_tile_rows(rt, "a region of 24 blocks for 25", &[0, 0], &[0; 24])?;
    show_virtual_columns(rt)?;
    show_tile_rows(rt, "tile rows 0, 1", &[0, 1], &[0; 25])?;
    show_tile_rows(rt, "tile rows 0, 2", &[0, 2], &[0; 25])?;
    show_tile_rows(rt, "tile rows 1, 1", &[1, 1], &[0; 25])?;
    show_parameters(rt)?;
    show_fixed(rt)?;
    show_chroma(rt, "chroma sample 255 of 8 bits", 255)?;
    show_chroma(rt, "chroma sample 256 of 8 bits", 256)
}
