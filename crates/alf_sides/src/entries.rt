// An entry of the table: a CTB's sides and corners as one number. Three bits hold the cause of a side, in the order left, right, top,
// bottom, and one bit after them each corner. The conversions are functions and no From: Sides, ClipCause and u16 are all of other crates.
ghost use Rattle.std.specs.Prelude.{◌≡◌, ◌≤◌};
ghost use Rattle.alf_spec.specs.Answers.{cause_number};
ghost use Rattle.alf_sides.specs.Entries.{corner_bit, entry_of, cause_numbered, sides_in};

use alf_boundary::causes::cause_number;
use alf_spec::{ClipCause, Sides};

// The number of a cause, as wide as an entry.
#[tactic(auto, using(crate::proofs::EntrySides::cause_small))]
fn cause_bits(cause: ClipCause) -> u16
    ensures { (result ≡ cause_number cause) × (result ≤ 5) }
{
    u16::from(cause_number(cause))
}

// The cause with this number.
#[tactic(auto, unfolding(crate::specs::Entries::cause_numbered))]
fn cause_numbered(n: u16) -> ClipCause
    ensures { result ≡ cause_numbered n }
{
    match n {
        1 => ClipCause::LineBufferBoundary,
        2 => ClipCause::VirtualBoundary,
        3 => ClipCause::Tile,
        4 => ClipCause::Slice,
        5 => ClipCause::Subpicture,
        _ => ClipCause::Open,
    }
}

// The bit of a corner: 1 where filtering across it is disabled.
fn corner_bit(disabled: bool) -> u16
    ensures { (result ≡ corner_bit disabled) × (result ≤ 1) }
{
    u16::from(disabled)
}

// The entry for these sides.
pub(crate) fn entry_of(sides: Sides) -> u16
    ensures { result ≡ entry_of sides }
{
    let columns = cause_bits(sides.left) + 8 * cause_bits(sides.right);
    let rows = 64 * cause_bits(sides.top) + 512 * cause_bits(sides.bottom);
    let corners = 4096 * corner_bit(sides.upper_left) + 8192 * corner_bit(sides.lower_right);
    columns + rows + corners
}

// The sides that an entry holds.
pub(crate) fn sides_in(entry: u16) -> Sides
    ensures { result ≡ sides_in entry }
{
    Sides {
        left: cause_numbered(entry % 8),
        right: cause_numbered(entry / 8 % 8),
        top: cause_numbered(entry / 64 % 8),
        bottom: cause_numbered(entry / 512 % 8),
        upper_left: entry / 4096 % 2 == 1,
        lower_right: entry / 8192 % 2 == 1,
    }
}
