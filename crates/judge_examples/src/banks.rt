// Bank files (02, card 2): a bank written and read back, and a file for each number that the reader answers with.
ghost use Rattle.std.specs.Prelude.{◌≤◌, length};

use crate::show_fault;
use alf::{read_bank, write_bank};
use alf_spec::Fault;
use std::io;

fn show_answer(rt: &impl Print, answer: Result<u8, Fault>) -> io::Result<()> {
    match answer {
        Ok(depth) => println!(rt; "bit depth {depth}"),
        Err(fault) => show_fault(rt, fault),
    }
}

// What the reader says of a file.
fn show_file(rt: &impl Print, text: &str, file: &[u8]) -> io::Result<()> {
    let mut bank = [0i16; 6016];
    print!(rt; "  {text} -> ")?;
    show_answer(rt, read_bank(file, &mut bank))
}

// What the writer says of a bank at bit depth 10.
fn show_written(rt: &impl Print, text: &str, answer: Result<u32, Fault>) -> io::Result<()> {
    match answer {
        Ok(length) => println!(rt; "{text}{length}"),
        Err(fault) => show_fault(rt, fault),
    }
}

fn first_bytes(file: &[u8], n: usize) -> &[u8]
    requires { n ≤ length file.now }
{
    &file[..n]
}

// The file is 17 bytes long: 4 of the depth's field, 13 of the filter's.
fn show_again(rt: &impl Print, file: &[u8]) -> io::Result<()> {
    if file.len() < 17 {
        return Ok(());
    }
    let mut bank = [255i16; 6016];
    print!(rt; "  read back -> ")?;
    show_answer(rt, read_bank(first_bytes(file, 17), &mut bank))?;
    let mut again = [0u8; 10508];
    show_written(
        rt,
        "  written again -> bytes ",
        write_bank(10, &bank, &mut again),
    )
}

// A bank with one filter: Cb's cross-component filter 1 of APS 2, whose numbers begin at 2 * 752 + 696 + 7.
fn show_round_trip(rt: &impl Print) -> io::Result<()> {
    let mut bank = [0i16; 6016];
    bank[2207] = 4;
    bank[2213] = -1;
    let mut file = [255u8; 10508];
    show_written(
        rt,
        "  one filter -> bytes ",
        write_bank(10, &bank, &mut file),
    )?;
    show_again(rt, &file)
}

// Files with no filter.
fn show_without_filter(rt: &impl Print) -> io::Result<()> {
    show_file(rt, "no byte", b"")?;
    show_file(rt, "a bit depth alone", b"\x01\x00\x01\x08")?;
    show_file(rt, "bit depth 7", b"\x01\x00\x01\x07")?;
    show_file(rt, "a field cut short", b"\x01\x00\x01\x08\x04\x00")?;
    show_file(rt, "tag 5", b"\x01\x00\x01\x08\x05\x00\x00")?;
    show_file(
        rt,
        "a second bit depth",
        b"\x01\x00\x01\x08\x01\x00\x01\x08",
    )
}

// A bit depth of 8, and Cr's first cross-component filter or one that there is not.
fn show_cross_component(rt: &impl Print) -> io::Result<()> {
    show_file(
        rt,
        "component 2",
        b"\x01\x00\x01\x08\x04\x00\x0a\x00\x02\x00\x01\x00\x00\x00\x00\x00\x00",
    )?;
    show_file(
        rt,
        "an all-zero filter",
        b"\x01\x00\x01\x08\x04\x00\x0a\x00\x01\x00\x00\x00\x00\x00\x00\x00\x00",
    )
}

// A bit depth of 8, and a chroma alternative with one clip.
fn show_clips(rt: &impl Print) -> io::Result<()> {
    show_file(
        rt,
        "clip 256 of 8 bits",
        b"\x01\x00\x01\x08\x03\x00\x14\x00\x00\x00\x00\x00\x00\x00\x00\x01\x00\x00\x00\x00\x00\x00\x00\x00\x00\x00\x00",
    )?;
    show_file(
        rt,
        "clip 257 of 8 bits",
        b"\x01\x00\x01\x08\x03\x00\x14\x00\x00\x00\x00\x00\x00\x00\x00\x01\x01\x00\x00\x00\x00\x00\x00\x00\x00\x00\x00",
    )
}

pub fn show_banks(rt: &impl Print) -> io::Result<()> {
    show_round_trip(rt)?;
    show_without_filter(rt)?;
    show_cross_component(rt)?;
    show_clips(rt)
}
