// What the samples of a piece and of a CTB are filtered from.
ghost use Rattle.std.specs.Prelude.{◌≡◌};
ghost use Rattle.alf_spec.specs.Input.{Input};
ghost use Rattle.alf_ctb.specs.FilterWork.{planes_input, planes_of};

use alf_spec::{FilterInput, Picture};
use std::marker::Model;

// A picture and its two planes, and no table: those of tiles, slices and subpictures have their say in a CTB's `Sides`, those of slices,
// CTBs and the bank in its filter's numbers. A plane that the filter does not read may be empty. Clauses see it as an `Input` whose tables
// are empty.
#[derive(Drop)]
pub struct Planes<'a> {
    pub picture: Picture,
    pub luma: &'a [u16],
    // the component's plane; for the cross-component filter it is filtered already, and luma is not
    pub chroma: &'a [u16],
}

impl<'a> Model for Planes<'a> {
    ghost Value = { Input };

    ghost view = { λ p. planes_input p.picture p.luma.now p.chroma.now };
}

impl<'a> Planes<'a> {
    // Those of this input.
    pub fn of(input: &FilterInput<'a>) -> Planes<'a>
        ensures { result ≡ planes_of input.now }
    {
        Planes {
            picture: input.layout.picture,
            luma: input.luma,
            chroma: input.chroma,
        }
    }
}
