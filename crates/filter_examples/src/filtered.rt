// A picture through every operation.
use example_pictures::drawing::draw_luma;
use example_pictures::tables::fill_bank;
use example_runs::show_picture;
use std::io;

// The picture's luma and the filter bank are made here, and lent once.
pub fn show(rt: &impl Print) -> io::Result<()> {
    let mut bank = [0i16; 6016];
    let mut luma = [0u16; 1600];
    let mut map = [255u8; 100];
    fill_bank(&mut bank);
    draw_luma(&mut luma);
    println!(rt;
        "40 by 40, four CTBs: two slices, a virtual column at 16, the second CTB not listed"
    )?;
    show_picture(rt, &bank, &luma, &mut map)
}
