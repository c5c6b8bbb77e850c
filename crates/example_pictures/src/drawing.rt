// The picture's planes: 40 by 40 luma, 20 by 20 chroma.
use crate::filling::fill_by;

// Bars that are four samples wide, of two levels.
pub(crate) fn bar(t: usize, dark: u16, bright: u16) -> u16 {
    if t % 8 < 4 { dark } else { bright }
}

// Dark and bright ones, with a grain of 0 to 30.
fn grained_bar(t: usize, grain: usize) -> u16 {
    let level = (grain % 31) as u16;
    bar(t, level, 225 + level)
}

// Luma at column x and row y: nearly flat, upright bars, then slanted bars above level ones.
fn luma_at(x: usize, y: usize) -> u16 {
    let grain = x % 40 * 7 + y % 40 * 11;
    if x < 8 {
        100 + (grain % 31) as u16
    } else if x < 20 {
        grained_bar(x, grain)
    } else if y < 18 {
        grained_bar(x % 40 + y % 40, grain)
    } else {
        grained_bar(y % 40 + 2, grain)
    }
}

pub fn draw_luma(luma: &mut [u16]) {
    fill_by(luma, |k| luma_at(k % 40, k / 40));
}

// Chroma: slanted bars up to a column, and nearly flat from there on.
fn chroma_at(x: usize, y: usize, columns: usize) -> u16 {
    let grain = x % 20 * 9 + y % 20 * 4;
    if x < columns {
        grained_bar(x % 20 + y % 20, grain)
    } else {
        140 + (grain % 31) as u16
    }
}

pub fn draw_chroma(columns: usize, chroma: &mut [u16]) {
    fill_by(chroma, |k| chroma_at(k % 20, k / 20, columns));
}
