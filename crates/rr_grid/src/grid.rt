ghost use Rattle.std.specs.Prelude.{◌≡◌, ◌≤◌, ◌+◌, length, MatchOption};
ghost use Rattle.rr_grid.specs.Gathering.{FitTogether};
ghost use Rattle.rr_grid.specs.Roots.{AreRooted, StandsNone, HasRootAt};
ghost use Rattle.rr_grid.specs.Sizes.{IsSize};

use crate::firsts::Firsts;
use crate::size::size_of;
use rr_items::GridPlace;
use std::marker::Model;

/// The root of the block that stands at a place: where it is, and the id of its block type.
#[derive(Clone, Copy, Debug, PartialEq, Eq)]
pub struct GridRoot {
    pub x: u32,
    pub y: u32,
    pub block_type: u32,
}

/// The grid of a routing graph file. Contracts see the list of its places in the file's order, of
/// which no two stand at one x and y. Each call takes constant time and no memory.
#[derive(Drop)]
pub struct Grid {
    places: Vec<GridPlace>,
    firsts: Firsts,
    size: (u32, u32),
}

impl Model for Grid {
    ghost use Rattle.std.specs.Prelude.{List};
    ghost use Rattle.rr_items.specs.declared.grid.GridPlace.{GridPlace};
    ghost use Rattle.rr_grid.specs.Gathering.{FitTogether};
    ghost use Rattle.rr_grid.specs.Sizes.{IsSize};

    ghost Value = { List GridPlace };

    ghost view = { λ g. g.places.items };

    ghost invariant = { λ g. FitTogether g.places.items g.firsts × IsSize g.places.items g.size };
}

impl Grid {
    /// The grid of places that were kept.
    pub(crate) fn of_places(places: Vec<GridPlace>, firsts: Firsts) -> Grid
        requires { FitTogether places.items firsts }
        ensures { result ≡ places.items }
    {
        let size = size_of(places.as_slice());
        Grid {
            places,
            firsts,
            size,
        }
    }

    /// Tells a caller's proof that no two places stand at one x and y, that these are below 2^31,
    /// and that each place has its root. It does nothing.
    pub fn law(&self)
        ensures { AreRooted self.now }
    {
        let _ = self.places.len();
    }

    /// How many places there are.
    pub fn len(&self) -> usize
        ensures { result ≡ length self.now }
    {
        self.places.len()
    }

    /// The places, in the file's order.
    pub fn places(&self) -> &[GridPlace]
        ensures { result.now ≡ self.now }
    {
        self.places.as_slice()
    }

    /// The root of the block that stands at (x, y), where the grid has such a place.
    pub fn root_at(&self, x: u32, y: u32) -> Option<GridRoot>
        ensures { MatchOption result (StandsNone self.now x y) (HasRootAt self.now x y) }
    {
        let first = self.firsts.at(x, y)?;
        Some(root_of(&first.place))
    }

    /// How many columns and rows the grid has: one more than the largest x and the largest y, and
    /// (0, 0) where it has no place.
    pub fn size(&self) -> (u32, u32)
        ensures { IsSize self.now result }
    {
        self.size
    }
}

/// Where the place's offsets lead.
fn root_of(place: &GridPlace) -> GridRoot
    requires x { place.now.width_offset ≤ place.now.x }
    requires y { place.now.height_offset ≤ place.now.y }
    ensures x { result.x + place.now.width_offset ≡ place.now.x }
    ensures y { result.y + place.now.height_offset ≡ place.now.y }
    ensures block_type { result.block_type ≡ place.now.block_type }
{
    GridRoot {
        x: place.x - place.width_offset,
        y: place.y - place.height_offset,
        block_type: place.block_type,
    }
}
