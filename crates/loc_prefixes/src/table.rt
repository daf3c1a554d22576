ghost use Rattle.std.specs.Prelude.{◌≡◌, ◌⊎◌, ◌<◌, ◌^◌, List, IfOk, IfErr, length};
ghost use Rattle.std.specs.Option.{option_map};
ghost use Rattle.arch_types.specs.declared.arch.Tile.{Tile};
ghost use Rattle.arch_types.specs.declared.arch.Single.{Single as Said};
ghost use Rattle.arch_types.specs.Names.{AreDifferent};
ghost use Rattle.arch_types.specs.Tiles.{tile_names};
ghost use Rattle.loc_prefixes.specs.Singles.{RefusesSingles};
ghost use Rattle.loc_prefixes.specs.Prefixes.{IsTableOf, IsPrefixOf, word_at};
ghost use Rattle.loc_prefixes.specs.declared.error.SinglesError.TheVariants.{OutOfMemory};

use crate::error::SinglesError;
use crate::holders::{Holders, holders_of};
use crate::singles::{SinglePrefixes, read_singles};
use crate::tile_names::tile_places;
use arch_types::{Arch, Single};
use rr_locs::LocAt;
use sqlite_items::Items;
use std::alloc::Global;
use vtr_base::Text;

/// The prefixes of a device's locations. A location's costs no memory.
#[derive(Drop)]
pub struct LocPrefixes {
    holders: Holders,
    said: Items<Option<SinglePrefixes>>,
}

impl LocPrefixes {
    /// The prefixes that these singles give, which are those of the layout that holds (`singles_of`).
    /// The first in file order whose prefix is refused is told.
    pub fn new(alloc: Global, arch: &Arch, singles: &[Single]) -> Result<LocPrefixes, SinglesError>
        requires few { length singles.now < 2 ^ 32 }
        ensures ok { IfOk result (λ table. IsTableOf arch.now.tiles singles.now table) }
        ensures refused { IfErr result (λ e.
            (e ≡ OutOfMemory) ⊎ RefusesSingles arch.now.tiles singles.now e) }
    {
        arch.law();
        let tiles = arch.tiles.as_slice();
        let places = tile_places(alloc, tiles)?;
        Ok(LocPrefixes {
            said: read_singles(alloc, tiles, &places, singles)?,
            holders: holders_of(alloc, singles)?,
        })
    }

    /// The prefix of a location.
    pub fn prefix(&self, loc: LocAt) -> Option<&Text>
        ensures { (tiles : List Tile) (singles : List Said) → AreDifferent (tile_names tiles)
            → IsTableOf tiles singles self.now
            → IsPrefixOf tiles singles loc (option_map (λ word. word.now) result) }
    {
        let place = self.holders.at(loc.x, loc.y)?;
        word_of(self.said.as_slice(), place, loc)
    }
}

/// The word for a location's sub that the `single` of that place says, if it is of the location's
/// tile.
fn word_of(said: &[Option<SinglePrefixes>], place: u32, loc: LocAt) -> Option<&Text>
    ensures { option_map (λ word. word.now) result ≡ word_at said.now place loc }
{
    let Some(Some(prefixes)) = said.get(place as usize) else {
        return None;
    };
    if prefixes.tile != loc.tile {
        return None;
    }
    prefixes.words.as_slice().get(loc.sub as usize)
}
