// The causes at the sides of a few luma samples: two CTBs of 32 side by side, in two slices, with the slice switch off and a virtual column
// at 16.
use crate::show_fault;
use alf::clip_causes;
use alf_spec::{Layout, Picture, SideCauses};
use example_pictures::layout::plain;
use std::io;

// Top, bottom, left, right.
fn show_sides(rt: &impl Print, causes: SideCauses) -> io::Result<()> {
    let top = causes.top;
    let bottom = causes.bottom;
    let left = causes.left;
    let right = causes.right;
    println!(rt; "{top}; {bottom}; {left}; {right}")
}

fn show_at(rt: &impl Print, x: u32, y: u32) -> io::Result<()> {
    print!(rt; "  ({x},{y}) -> ")?;
    let layout = Layout {
        picture: Picture {
            slice_count: 2,
            across_slices: false,
            ..plain(64, 32, 5)
        },
        virtual_columns: &[16],
        virtual_rows: &[],
        tile_columns: &[0; 2],
        tile_rows: &[0; 1],
        slice_map: &[0, 1],
        subpic_map: &[0; 2],
        subpic_across: &[1; 64],
    };
    match clip_causes(&layout, x, y) {
        Ok(causes) => show_sides(rt, causes),
        Err(fault) => show_fault(rt, fault),
    }
}

// At the picture's rim; 5 rows above the line-buffer boundary, and 4; below it; beside the virtual column; on both sides of the slices'
// border; outside.
pub fn show_causes(rt: &impl Print) -> io::Result<()> {
    show_at(rt, 0, 0)?;
    show_at(rt, 8, 23)?;
    show_at(rt, 8, 24)?;
    show_at(rt, 8, 28)?;
    show_at(rt, 18, 8)?;
    show_at(rt, 31, 24)?;
    show_at(rt, 32, 31)?;
    show_at(rt, 64, 0)?;
    show_at(rt, 0, 32)
}
