ghost use Rattle.std.specs.Prelude.{◌≡◌, ◌<◌, length, map, MatchBool, MatchOption, MatchResult};
ghost use Rattle.rr_items.specs.declared.grid.GridPlace.{GridPlace as Place};
ghost use Rattle.rr_grid.specs.Firsts.{AreFirsts, KeepsAt, LeadsTo, KeepsRoot, IsFirstWithRoot};
ghost use Rattle.rr_grid.specs.Saying.{IsRight};
ghost use Rattle.rr_grid.specs.Refusing.{Fails};

use crate::error::GridError;
use crate::firsts::Firsts;
use crate::types::BlockTypeIds;
use elem_text::Elem;
use rr_items::{GridFault, GridPlace, grid_place, one_item};

/// The place that the item of this index says, where it is right.
pub(crate) fn right_place<T: BlockTypeIds>(
    elems: &[&Elem],
    index: usize,
    firsts: &Firsts,
    types: &T,
) -> Result<GridPlace, GridError>
    requires within { index < length elems.now }
    requires firsts { AreFirsts (map (λ e. e.now) elems.now) (length elems.now) firsts.now }
    ensures { MatchResult result
        (IsRight (T.known types.now) (map (λ e. e.now) elems.now) index)
        (Fails (T.known types.now) (map (λ e. e.now) elems.now) index) }
{
    one_item();
    let elem = elems[index];
    let place = match grid_place(elem) {
        Ok(place) => place,
        Err(GridFault::Layer) => return Err(GridError::Layer),
        Err(GridFault::Number) => return Err(GridError::BadItem { place: elem.place }),
    };
    if !types.has_block_type(place.block_type) {
        return Err(GridError::UnknownBlock {
            id: place.block_type,
        });
    }
    if !is_placed(index, &place, firsts) {
        return Err(GridError::BadGrid {
            x: place.x,
            y: place.y,
        });
    }
    Ok(place)
}

/// Whether the place is the first at its x and y, and has its root.
fn is_placed(index: usize, place: &GridPlace, firsts: &Firsts) -> bool
    ensures { MatchBool result (IsFirstWithRoot firsts.now index place.now)
        (IsFirstWithRoot firsts.now index place.now → ⊥) }
{
    is_first(index, place, firsts) && has_root(place, firsts)
}

/// Whether the first place at the place's x and y came with this index.
fn is_first(index: usize, place: &GridPlace, firsts: &Firsts) -> bool
    ensures { MatchBool result (KeepsAt firsts.now index place.now.x place.now.y)
        (KeepsAt firsts.now index place.now.x place.now.y → ⊥) }
{
    match firsts.at(place.x, place.y) {
        Some(first) => first.index == index,
        None => false,
    }
}

/// Whether the place's offsets lead to a root of the same block type.
fn has_root(place: &GridPlace, firsts: &Firsts) -> bool
    ensures { MatchBool result (KeepsRoot firsts.now place.now)
        (KeepsRoot firsts.now place.now → ⊥) }
{
    match place_at_root(place, firsts) {
        Some(root) => is_root(&root) && root.block_type == place.block_type,
        None => false,
    }
}

/// Whether both offsets are 0.
fn is_root(place: &GridPlace) -> bool
    ensures { MatchBool result ((place.now.width_offset ≡ 0) × (place.now.height_offset ≡ 0))
        ((place.now.width_offset ≡ 0) × (place.now.height_offset ≡ 0) → ⊥) }
{
    place.width_offset == 0 && place.height_offset == 0
}

/// The first place where the place's offsets lead.
fn place_at_root(place: &GridPlace, firsts: &Firsts) -> Option<GridPlace>
    ensures { MatchOption result ((root : Place) → LeadsTo firsts.now place.now root → ⊥)
        (LeadsTo firsts.now place.now) }
{
    let x = place.x.checked_sub(place.width_offset)?;
    let y = place.y.checked_sub(place.height_offset)?;
    let first = firsts.at(x, y)?;
    Some(first.place)
}
