// Runs paper 01's examples of judging and of the isolation test, an input for each number of its table and for what shares a number, the
// causes at the sides of a few samples, and files of banks.
#![tactic(auto)]

mod banks;
mod causes;
mod damaged;
mod rows;

use alf::{fault_number, isolated, number};
use alf_spec::{Fault, Layout};
use example_pictures::layout::plain;
use std::io;

// What the isolation test answers.
fn show(rt: &impl Print, answer: Result<bool, Fault>) -> io::Result<()> {
    match answer {
        Ok(true) => println!(rt; "isolated"),
        Ok(false) => println!(rt; "not isolated"),
        Err(fault) => show_fault(rt, fault),
    }
}

fn show_fault(rt: &impl Print, fault: Fault) -> io::Result<()> {
    let number = fault_number(fault);
    println!(rt; "rejected, number {number}")
}

// A picture so wide, with one row of CTBs of 128 that have these tile columns, slices and subpictures, and a region of it.
fn show_width(rt: &impl Print, width: u32, numbers: &[u8], region: &[u8]) -> io::Result<()> {
    let layout = Layout {
        picture: plain(width, 8, 7),
        virtual_columns: &[],
        virtual_rows: &[],
        tile_columns: numbers,
        tile_rows: &[0; 1],
        slice_map: numbers,
        subpic_map: numbers,
        subpic_across: &[1; 64],
    };
    let number = number(&isolated(&layout, region));
    println!(rt; "  {width} -> {number}")
}

// Two subpictures side by side in one tile and slice, no virtual boundary, left switch off, right on. A region is four rows of eight
// blocks.
fn show_half(rt: &impl Print, region: &[u8]) -> io::Result<()> {
    let mut subpic_across = [1u8; 64];
    subpic_across[0] = 0;
    let layout = Layout {
        picture: plain(64, 32, 5),
        virtual_columns: &[],
        virtual_rows: &[],
        tile_columns: &[0; 2],
        tile_rows: &[0; 1],
        slice_map: &[0; 2],
        subpic_map: &[0, 1],
        subpic_across: &subpic_across,
    };
    show(rt, isolated(&layout, region))
}

fn main(rt: HostRuntime) -> io::Result<()> {
    println!(&rt; "the number answered for a picture width, 0 where it is accepted")?;
    let ctb = [0u8; 1];
    let ctbs = [0u8; 32];
    let block = [0u8; 1];
    let blocks = [0u8; 512];
    show_width(&rt, 8, &ctb, &block)?;
    show_width(&rt, 4096, &ctbs, &blocks)?;
    show_width(&rt, 0, &ctb, &block)?;
    show_width(&rt, 12, &ctb, &block)?;
    show_width(&rt, 4104, &ctbs, &blocks)?;
    print!(&rt; "two subpictures side by side, left switch off, right on\n  left: ")?;
    show_half(
        &rt,
        b"\x01\x01\x01\x01\x00\x00\x00\x00\x01\x01\x01\x01\x00\x00\x00\x00\x01\x01\x01\x01\x00\x00\x00\x00\x01\x01\x01\x01\x00\x00\x00\x00",
    )?;
    print!(&rt; "  right: ")?;
    show_half(
        &rt,
        b"\x00\x00\x00\x00\x01\x01\x01\x01\x00\x00\x00\x00\x01\x01\x01\x01\x00\x00\x00\x00\x01\x01\x01\x01\x00\x00\x00\x00\x01\x01\x01\x01",
    )?;
    println!(&rt;
        "the number answered where this cause alone is broken, and where all from it to 13 are"
    )?;
    damaged::show_all(&rt)?;
    println!(&rt; "the number answered where this alone is broken, 0 where it is sound")?;
    rows::show_rows(&rt)?;
    println!(&rt; "the causes at a sample's top, bottom, left and right")?;
    causes::show_causes(&rt)?;
    println!(&rt; "a bank as a file, and what the reader says of files")?;
    banks::show_banks(&rt)
}
