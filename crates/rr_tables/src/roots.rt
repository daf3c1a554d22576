ghost use Rattle.std.specs.Prelude.{◌≡◌, IfOk};
ghost use Rattle.list_laws.specs.Orders.{Once};
ghost use Rattle.rr_tables.specs.Roots.{roots_of as all_roots, root_of as the_root};
ghost use Rattle.rr_tables.specs.Tiles.{FitTiles};

use arch_types::Tile;
use rr_items::GridPlace;
use rr_locs::TileRoot;
use rr_places::BlockTypes;
use sqlite_items::at;
use std::alloc::{AllocError, Global};

/// The roots of the blocks that have locations, in the order of the places.
pub(crate) fn roots_of(
    alloc: Global,
    tiles: &[Tile],
    types: &BlockTypes,
    places: &[GridPlace],
) -> Result<Vec<TileRoot>, AllocError>
    requires { FitTiles tiles.now types.now }
    ensures { IfOk result (λ roots. roots.items ≡ all_roots tiles.now types.now places.now) }
{
    let mut roots = Vec::new(alloc);
    for place in places {
        if let Some(root) = root_of(tiles, types, *place) {
            roots.push(root)?;
        }
    }
    Ok(roots)
}

/// The root at a place, where it is one of a block that has locations.
fn root_of(tiles: &[Tile], types: &BlockTypes, place: GridPlace) -> Option<TileRoot>
    requires { FitTiles tiles.now types.now }
    ensures { result ≡ the_root tiles.now types.now place }
{
    if place.width_offset != 0 || place.height_offset != 0 {
        return None;
    }
    let tile = types.block_type(place.block_type)?.tile()?;
    let capacity = at(tiles, tile as usize)?.capacity;
    Some(TileRoot {
        x: place.x,
        y: place.y,
        tile,
        capacity,
    })
}
