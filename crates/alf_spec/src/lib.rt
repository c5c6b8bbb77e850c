// The types that callers of the operations see, and those that code and definitions share.
#![tactic(auto)]

mod inputs;

pub use inputs::{FilterInput, Layout};
use std::fmt;

// A picture's sizes and switches (01: frame). A switch that is true filters across.
#[derive(Clone, Copy)]
pub struct Picture {
    pub width: u32,
    pub height: u32,
    // CtbLog2SizeY (01: CTB exponent)
    pub ctb_log2: u8,
    // BitDepth (01: B)
    pub bit_depth: u8,
    // ChromaArrayType (01: chroma mark): 0 luma alone, 1 4:2:0, 2 4:2:2, 3 4:4:4. A number, since any other is answered with fault 4.
    pub chroma_format: u8,
    // how many slices have parameters (01: N)
    pub slice_count: u32,
    pub across_tiles: bool,
    pub across_slices: bool,
}

// Why an input is rejected, in the order of the numbers 1 to 14 of 01's table and of those that 02's cards add.
#[derive(Clone, Copy, PartialEq, Eq)]
pub enum Fault {
    PictureSize,
    CtbSize,
    BitDepth,
    // also chroma work without chroma, and another component than Cb or Cr
    ChromaFormat,
    // also a slice count out of range
    Length,
    VirtualBoundary,
    Tile,
    Slice,
    Subpicture,
    // of a slice or a CTB
    Parameter,
    // a coefficient, a clip or an entry of the fixed map
    Filter,
    Sample,
    // of a CTB in the list
    Address,
    // an entry of a region (01: area byte)
    Region,
    // a luma position outside the picture
    Position,
    // of a bank file: a field that ends before the bytes that it calls for
    FieldCutShort,
    // a tag, a length or a leading number that is not listed
    FieldUnlisted,
    // a field that may not stand where it does: tag 1 missing, a filter out of order, repeated or all zero
    FieldOutOfPlace,
}

// Which filter; a component is 0 (Cb) or 1 (Cr). A number, since any other is answered with fault 4.
#[derive(Clone, Copy)]
pub enum Filter {
    Luma,
    Chroma(u8),
    CrossComponent(u8),
}

// Why filtering stops at a side of a luma sample, or of a CTB (02, card 1: cause), in the order of the numbers 0 to 5. A CTB's side is
// open, or has one of the last three.
#[derive(Clone, Copy, PartialEq, Eq)]
pub enum ClipCause {
    Open,
    // 01: the line
    LineBufferBoundary,
    VirtualBoundary,
    Tile,
    Slice,
    Subpicture,
}

impl fmt::Display for ClipCause {
    ghost use Rattle.std.specs.Prelude.{Some};
    ghost use Rattle.alf_spec.specs.Answers.{cause_name};

    ghost output = { λ c. Some (cause_name c) };

    fn fmt<W: fmt::Write>(&self, f: &mut fmt::Formatter<W>) -> fmt::Result {
        f.write_str(match self {
            ClipCause::Open => "open",
            ClipCause::LineBufferBoundary => "line-buffer boundary",
            ClipCause::VirtualBoundary => "virtual boundary",
            ClipCause::Tile => "tile",
            ClipCause::Slice => "slice",
            ClipCause::Subpicture => "subpicture",
        })
    }
}

// A clip position (01: edge) of a luma sample, with its cause.
#[derive(Clone, Copy)]
pub struct Clip {
    pub cause: ClipCause,
    pub position: u32,
}

// The causes on the four sides of a luma sample.
#[derive(Clone, Copy)]
pub struct SideCauses {
    pub top: ClipCause,
    pub bottom: ClipCause,
    pub left: ClipCause,
    pub right: ClipCause,
}

// A picture's CTB grid: the side of a CTB in luma samples, and how many CTBs there are in a row and in a column.
#[derive(Clone, Copy)]
pub struct Grid {
    pub ctb: u32,
    pub columns: u32,
    pub rows: u32,
}

// A CTB by its place in the grid.
#[derive(Clone, Copy)]
pub struct Ctb {
    pub column: u32,
    pub row: u32,
}

// A CTB's sides, by why filtering across them is disabled (01: closed), and its corners: true where it is. The corners are judged by slices
// alone.
#[derive(Clone, Copy)]
pub struct Sides {
    pub left: ClipCause,
    pub right: ClipCause,
    pub top: ClipCause,
    pub bottom: ClipCause,
    // clipTopLeftFlag
    pub upper_left: bool,
    // clipBotRightFlag
    pub lower_right: bool,
}

// The rows of a class window that count, as the first (row r stands at offset r − 3) and how many, and the activity factor.
#[derive(Clone, Copy)]
pub struct WindowRows {
    pub first: u32,
    pub count: u32,
    pub factor: u32,
}

// The sums of second differences over a class window: vertical, horizontal, and along the two diagonals.
#[derive(Clone, Copy)]
pub struct Sums {
    pub v: u32,
    pub h: u32,
    pub d0: u32,
    pub d1: u32,
}

// Two of these sums whose directions cross: the larger, the smaller, and the larger one's direction: a number, with which (1500) computes.
#[derive(Clone, Copy)]
pub struct Gradient {
    pub large: u32,
    pub small: u32,
    pub direction: u32,
}

// The filter index (class) and the transpose of a 4 by 4 block, numbers as in the map: class + 32 * transpose.
#[derive(Clone, Copy)]
pub struct Class {
    pub filter: u32,
    pub transpose: u32,
}

// How far above and below its row a luma sample's taps read, and the shift of their sum (Table 45).
#[derive(Clone, Copy)]
pub struct LumaRows {
    pub y1: u32,
    pub y2: u32,
    pub y3: u32,
    pub shift: u32,
}

// The same for chroma (Table 46).
#[derive(Clone, Copy)]
pub struct ChromaRows {
    pub y1: u32,
    pub y2: u32,
    pub shift: u32,
}

// The same for the cross-component filter (Table 47): y1 above and below, y2 below only. Its shift is always 7.
#[derive(Clone, Copy)]
pub struct CrossRows {
    pub y1: u32,
    pub y2: u32,
}
