// The picture: 40 by 40 at 8 bits, 4:2:0, in four CTBs of 32 samples a side. Those of the first row are whole, so the line-buffer boundary
// counts there.
use alf_spec::Picture;

// A picture of luma alone at 8 bits, of one slice, all switches on.
pub fn plain(width: u32, height: u32, ctb_log2: u8) -> Picture {
    Picture {
        width: width,
        height: height,
        ctb_log2: ctb_log2,
        bit_depth: 8,
        chroma_format: 0,
        slice_count: 1,
        across_tiles: true,
        across_slices: true,
    }
}

pub fn picture() -> Picture {
    Picture {
        chroma_format: 1,
        slice_count: 2,
        across_slices: false,
        ..plain(40, 40, 5)
    }
}

pub const VIRTUAL_COLUMNS: [u16; 1] = [16];

pub const VIRTUAL_ROWS: [u16; 0] = [];

// The tile columns, and the tile rows: one tile.
pub const TILES: [u8; 2] = [0, 0];

// The first CTB is a slice of its own, and nothing is filtered across: its sides are closed, and the corner where it meets the last CTB.
pub const SLICE_MAP: [u8; 4] = [0, 1, 1, 1];

pub const SUBPIC_MAP: [u8; 4] = [0, 0, 0, 0];

pub const SUBPIC_ACROSS: [u8; 64] = [1; 64];
