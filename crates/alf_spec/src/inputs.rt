// What the operations are lent, as the papers group it: the layout, which all of them take, and the input of the filters. Clauses see them
// as the records `Layout` and `Input` of specs/Input.
ghost use Rattle.alf_spec.specs.Input.{Layout as LayoutValue, layout_of, Input, input_of};

use crate::Picture;
use std::marker::Model;

// A picture and its boundary tables (01: frame; virtual boundaries, tiles, slices, subpictures).
#[derive(Drop)]
pub struct Layout<'a> {
    pub picture: Picture,
    pub virtual_columns: &'a [u16],
    pub virtual_rows: &'a [u16],
    // the tile column of each CTB column, the tile row of each CTB row
    pub tile_columns: &'a [u8],
    pub tile_rows: &'a [u8],
    // by CTB address
    pub slice_map: &'a [u8],
    pub subpic_map: &'a [u8],
    // by subpicture: 1 filters across its sides
    pub subpic_across: &'a [u8],
}

impl<'a> Model for Layout<'a> {
    ghost Value = { LayoutValue };

    ghost view = { λ l. layout_of l.picture l.virtual_columns.now l.virtual_rows.now l.tile_columns.now l.tile_rows.now
        l.slice_map.now l.subpic_map.now l.subpic_across.now };
}

// What a filter is given. What it does not read may be empty, and plays no part: chroma for luma, luma and the fixed tables for chroma, the
// fixed tables for the cross-component filter.
#[derive(Drop)]
pub struct FilterInput<'a> {
    pub layout: Layout<'a>,
    // eleven numbers a slice (01: slice row)
    pub slice_params: &'a [u8],
    // eight APSs of 752 numbers (01: bank)
    pub bank: &'a [i16],
    // eight numbers a CTB (01: CTB choices)
    pub ctb_params: &'a [u8],
    // the CTBs to filter, by address
    pub ctb_list: &'a [u32],
    // AlfFixFiltCoeff, 64 filters of 12, and AlfClassToFiltMap, 16 times 25
    pub fixed_filters: &'a [i16],
    pub fixed_map: &'a [u8],
    pub luma: &'a [u16],
    // the component's plane; for the cross-component filter it is filtered already, and luma is not
    pub chroma: &'a [u16],
}

// Of an `Input`, this has all but the length of the output, which `with_output` adds.
impl<'a> Model for FilterInput<'a> {
    ghost Value = { Input };

    ghost view = { λ i. input_of i.layout i.luma.now i.chroma.now i.slice_params.now i.bank.now i.ctb_params.now
        i.ctb_list.now i.fixed_filters.now i.fixed_map.now 0 };
}
