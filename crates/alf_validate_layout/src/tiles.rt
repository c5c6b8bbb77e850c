// Cause 7: tile numbers.
ghost use Rattle.std.specs.Prelude.{◌≡◌, ◌||◌, ◌+◌, ◌-◌, length, get_or, eqb};
ghost use Rattle.alf_spec.specs.Lists.{all_below};
ghost use Rattle.alf_spec.specs.Input.{Layout as LayoutValue};
ghost use Rattle.alf_spec.specs.Faults.{follows_at, tile_list_valid, tiles_valid};

use alf_spec::Layout;

// Whether a tile number equals the one before or is one more.
fn follows(last: u8, next: u8) -> bool
    ensures { result ≡ (eqb next last || eqb next (last + 1)) }
{
    (next == last) | (next as u16 == last as u16 + 1)
}

// Whether the list begins at 0, which an empty one does.
fn starts_at_zero(list: &[u8]) -> bool
    ensures { result ≡ eqb (get_or list.now 0 0) 0 }
{
    match list.first() {
        Some(first) => *first == 0,
        None => true,
    }
}

// Whether each entry equals the one before or is one more.
fn each_follows(list: &[u8]) -> bool
    ensures { result ≡ all_below (length list.now - 1) (follows_at list.now) }
{
    list.windows(2).all(|pair| follows(pair[0], pair[1]))
}

// Whether a list of tile columns or rows is valid.
#[tactic(auto, unfolding(alf_spec::specs::Faults::tile_list_valid))]
fn tile_list_valid(list: &[u8]) -> bool
    ensures { result ≡ tile_list_valid list.now }
{
    starts_at_zero(list) & each_follows(list)
}

// Cause 7: the tile columns of the CTB columns and the tile rows of the CTB rows.
#[tactic(auto, unfolding(alf_spec::specs::Faults::tiles_valid))]
pub fn tiles_valid(layout: &Layout) -> bool
    ensures own { result ≡ tiles_valid layout.now }
    ensures part { (l : LayoutValue) → l.tile_columns ≡ layout.now.tile_columns → l.tile_rows ≡ layout.now.tile_rows
        → result ≡ tiles_valid l }
{
    tile_list_valid(layout.tile_columns) & tile_list_valid(layout.tile_rows)
}
