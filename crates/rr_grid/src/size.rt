ghost use Rattle.std.specs.Prelude.{◌<◌, ◌^◌};
ghost use Rattle.vtr_base.specs.Lists.{Has};
ghost use Rattle.rr_items.specs.declared.grid.GridPlace.{GridPlace as Place};
ghost use Rattle.rr_grid.specs.Sizes.{IsSize, AddsPlace};

use rr_items::GridPlace;

/// One more than the largest x and the largest y of all places; (0, 0) where there is none.
pub(crate) fn size_of(places: &[GridPlace]) -> (u32, u32)
    requires low_x { (place : Place) → Has places.now place → place.x < 2 ^ 31 }
    requires low_y { (place : Place) → Has places.now place → place.y < 2 ^ 31 }
    ensures { IsSize places.now result }
{
    let mut size = (0, 0);
    for place in places {
        size = with_place(size, *place);
    }
    size
}

/// The least size that has room for this place too.
fn with_place(size: (u32, u32), place: GridPlace) -> (u32, u32)
    requires low_x { place.x < 2 ^ 31 }
    requires low_y { place.y < 2 ^ 31 }
    ensures { AddsPlace size place result }
{
    (size.0.max(place.x + 1), size.1.max(place.y + 1))
}
