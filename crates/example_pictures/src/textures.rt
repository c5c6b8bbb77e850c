// A picture with four kinds of texture side by side.
use crate::drawing::bar;
use crate::filling::fill_by;
use crate::layout::plain;
use alf_spec::Picture;

// The levels of the bars.
const DARK: u16 = 60;

const BRIGHT: u16 = 160;

// 64 by 48 at 8 bits, with CTBs of 32: the CTBs of the second row are not whole.
pub fn textured_picture() -> Picture {
    plain(64, 48, 5)
}

// The sample at index k: flat, upright bars, slanted bars, level bars, side by side.
fn level(k: usize) -> u16 {
    let x = k % 64;
    let y = k / 64;
    if x < 16 {
        100
    } else if x < 32 {
        bar(x, DARK, BRIGHT)
    } else if x < 48 {
        bar(x + y, DARK, BRIGHT)
    } else {
        bar(y, DARK, BRIGHT)
    }
}

pub fn draw_textures(luma: &mut [u16]) {
    fill_by(luma, level);
}
