// A walk over the pieces of a CTB: a piece of its rows at a time, and in that a piece of its columns at a time.
ghost use Rattle.std.specs.Prelude.{◌≡◌, ◌*◌, ◌<◌};
ghost use Rattle.alf_pieces.specs.Walks.{Axes, axes_of, axes_through, AlongAxes, Stands, Follows};

use crate::pieces::{Piece, ctb_limit, piece_at};
use alf_boundary::clips::{CtbAxis, column_axis, ctb_start, row_axis};
use alf_spec::{Grid, Layout, Sides};
use std::marker::Model;

// The two axes through a CTB, each with the virtual boundaries along it. Clauses see them as the record `Axes` of specs/Walks.
#[derive(Drop)]
pub struct CtbAxes<'a> {
    pub columns: CtbAxis,
    pub virtual_columns: &'a [u16],
    pub rows: CtbAxis,
    pub virtual_rows: &'a [u16],
}

impl<'a> Model for CtbAxes<'a> {
    ghost Value = { Axes };

    ghost view = { λ a. axes_of a.columns a.virtual_columns.now a.rows a.virtual_rows.now };
}

impl<'a> CtbAxes<'a> {
    // Those through the CTB at address k, which has these sides, with the line so many luma rows above the CTB's bottom.
    pub fn through(layout: &Layout<'a>, grid: Grid, sides: Sides, line: u32, k: u32) -> CtbAxes<'a>
        requires { 0 < grid.columns }
        ensures { result ≡ axes_through layout.now grid sides line k }
    {
        CtbAxes {
            columns: column_axis(layout.picture, grid, sides, k % grid.columns),
            virtual_columns: layout.virtual_columns,
            rows: row_axis(layout.picture, grid, sides, line, k / grid.columns),
            virtual_rows: layout.virtual_rows,
        }
    }
}

// Where a walk stands: at a piece with these columns and rows.
#[derive(Clone, Copy)]
pub struct CtbWalk {
    pub columns: Piece,
    pub rows: Piece,
}

// The first piece of the CTB through which these axes go.
pub fn first_piece(axes: &CtbAxes) -> CtbWalk
    requires { AlongAxes axes.now }
    ensures { (Stands axes.now (Some result))
        × (result.columns.start ≡ axes.now.columns.place * axes.now.columns.ctb)
        × (result.rows.start ≡ axes.now.rows.place * axes.now.rows.ctb) }
{
    CtbWalk {
        columns: piece_at(axes.columns, axes.virtual_columns, ctb_start(axes.columns)),
        rows: piece_at(axes.rows, axes.virtual_rows, ctb_start(axes.rows)),
    }
}

// The piece behind the one at which the walk stands: beside it, or the first of the next rows. Behind the last one there is none.
pub fn next_piece(axes: &CtbAxes, at: CtbWalk) -> Option<CtbWalk>
    requires { (AlongAxes axes.now) × (Stands axes.now (Some at)) }
    ensures { (Stands axes.now result) × (Follows axes.now at result) }
{
    let columns = axes.columns;
    let rows = axes.rows;
    if at.columns.end < ctb_limit(columns) {
        return Some(CtbWalk {
            columns: piece_at(columns, axes.virtual_columns, at.columns.end),
            rows: at.rows,
        });
    }
    if at.rows.end < ctb_limit(rows) {
        return Some(CtbWalk {
            columns: piece_at(columns, axes.virtual_columns, ctb_start(columns)),
            rows: piece_at(rows, axes.virtual_rows, at.rows.end),
        });
    }
    None
}
