ghost use Rattle.std.specs.Prelude.{◌≡◌, ◌⊎◌, ◌<◌, ◌^◌, IfOk, IfErr, length};
ghost use Rattle.arch_types.specs.Tiles.{tile_names};
ghost use Rattle.meta_lines.specs.Each.{Each};
ghost use Rattle.meta_lines.specs.declared.error.LineError.TheVariants.{OutOfMemory as NoRoom};
ghost use Rattle.loc_prefixes.specs.Singles.{SaysSingle, RefusesSingle, RefusesSingles};
ghost use Rattle.loc_prefixes.specs.declared.error.SinglesError.TheVariants.{OutOfMemory, Refused};

use crate::error::SinglesError;
use arch_types::{Single, Tile};
use meta_lines::{LineError, read_prefix};
use names::LentNames;
use sqlite_items::Items;
use std::alloc::Global;
use vtr_base::Text;

/// What the `fasm_prefix` of a `single` says.
#[derive(Debug, Drop)]
pub struct SinglePrefixes {
    /// The number of its tile.
    pub tile: u32,
    /// One for each location of the tile.
    pub words: Items<Text>,
}

/// What each `single` says, in file order; nothing where it has no prefix or names no tile.
/// `places` are the tiles' names.
pub(crate) fn read_singles(
    alloc: Global,
    tiles: &[Tile],
    places: &LentNames<'_>,
    singles: &[Single],
) -> Result<Items<Option<SinglePrefixes>>, SinglesError>
    requires names { places.now ≡ tile_names tiles.now }
    requires few { length singles.now < 2 ^ 32 }
    ensures ok { IfOk result (λ said. Each (SaysSingle tiles.now) singles.now said) }
    ensures refused { IfErr result (λ e.
        (e ≡ OutOfMemory) ⊎ RefusesSingles tiles.now singles.now e) }
{
    let mut said = Vec::new(alloc);
    for (number, single) in singles.iter().enumerate() {
        match read_single(alloc, tiles, places, single) {
            Ok(here) => said.push(here)?,
            Err(e) => return Err(refused_at(number as u32, e)),
        }
    }
    Ok(Items::from_vec(said))
}

/// What is told of a `single` that is refused.
fn refused_at(single: u32, error: LineError) -> SinglesError
    ensures short { error ≡ NoRoom → result ≡ OutOfMemory }
    ensures refused { (error ≡ NoRoom → ⊥) → result ≡ Refused single error }
{
    match error {
        LineError::OutOfMemory => SinglesError::OutOfMemory,
        _ => SinglesError::Refused { single, error },
    }
}

/// What a `single` says.
fn read_single(
    alloc: Global,
    tiles: &[Tile],
    places: &LentNames<'_>,
    single: &Single,
) -> Result<Option<SinglePrefixes>, LineError>
    requires names { places.now ≡ tile_names tiles.now }
    ensures ok { IfOk result (λ said. SaysSingle tiles.now single.now said) }
    ensures refused { IfErr result (λ e.
        (e ≡ NoRoom) ⊎ RefusesSingle tiles.now single.now e) }
{
    let text = single.prefix.as_bytes();
    if text.is_empty() {
        return Ok(None);
    }
    let Some(tile) = places.find(single.tile.as_bytes()) else {
        return Ok(None);
    };
    let words = read_prefix(alloc, text, tiles[tile as usize].capacity)?;
    Ok(Some(SinglePrefixes { tile, words }))
}
