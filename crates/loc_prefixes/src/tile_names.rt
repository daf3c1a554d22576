ghost use Rattle.std.specs.Prelude.{◌≡◌, ◌<◌, ◌^◌, IfOk, length};
ghost use Rattle.arch_types.specs.Names.{AreDifferent};
ghost use Rattle.arch_types.specs.Tiles.{tile_names};

use arch_types::Tile;
use names::LentNames;
use std::alloc::{AllocError, Global};

/// The tiles' names.
pub(crate) fn tile_places<'a>(alloc: Global, tiles: &'a [Tile]) -> Result<LentNames<'a>, AllocError>
    requires different { AreDifferent (tile_names tiles.now) }
    requires few { length tiles.now < 2 ^ 32 }
    ensures { IfOk result (λ places. places ≡ tile_names tiles.now) }
{
    let mut places = LentNames::new(alloc);
    for tile in tiles {
        places.add(tile.name.as_bytes())?;
    }
    Ok(places)
}
