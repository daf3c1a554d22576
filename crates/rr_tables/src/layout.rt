ghost use Rattle.std.specs.Prelude.{◌≡◌, ◌≤◌, ◌<◌, ◌^◌, ◌⊎◌, ℕ, length, MatchOption, MatchResult};
ghost use Rattle.std.specs.List.{sum_by};
ghost use Rattle.rr_grid.specs.Sizes.{IsSize};
ghost use Rattle.rr_tables.specs.Layouts.{IsLaidOn, IsLayout, HasClassAt, HasSub};
ghost use Rattle.rr_tables.specs.Looks.{pin_of as pin_in, loc_at};
ghost use Rattle.rr_tables.specs.Roots.{roots_of as all_roots};
ghost use Rattle.rr_tables.specs.Tiles.{FitTiles};

use crate::roots::roots_of;
use arch_types::Tile;
use rr_grid::Grid;
use rr_items::TilePin;
use rr_locs::{LocAt, Locs, LocsError, subs_follow};
use rr_nodes::{FoundPin, PinTable};
use rr_places::{BlockTypes, ClassedPin, SubPin};
use std::alloc::Global;
use std::marker::Model;

/// The layout of a routing graph: its block types, its grid, and the locations of its blocks. Each
/// call but the first takes constant time and no memory.
#[derive(Drop)]
pub struct Layout {
    types: BlockTypes,
    grid: Grid,
    locs: Locs,
}

impl Model for Layout {
    ghost use Rattle.rr_tables.specs.Layouts.{IsLayout};
    ghost use Rattle.rr_tables.specs.Looks.{LayoutParts};

    ghost Value = { LayoutParts };

    ghost view = { λ l. record { types = l.types; places = l.grid; locs = l.locs } };

    ghost invariant = { λ l.
        IsLayout (record { types = l.types; places = l.grid; locs = l.locs }) };
}

impl Layout {
    /// The layout of block types and a grid over the tiles of an architecture.
    pub fn new(
        alloc: Global,
        tiles: &[Tile],
        types: BlockTypes,
        grid: Grid,
    ) -> Result<Layout, LocsError>
        requires { FitTiles tiles.now types }
        ensures { MatchResult result
            (λ l. (l.types ≡ types) × (l.places ≡ grid) × IsLaidOn tiles.now l
            × (sum_by (λ root. root.capacity) (all_roots tiles.now types grid) ≤ 2 ^ 20))
            (λ e. (e ≡ LocsError.OutOfMemory) ⊎ ((e ≡ LocsError.TooMany)
            × (2 ^ 20 < sum_by (λ root. root.capacity) (all_roots tiles.now types grid)))) }
    {
        grid.law();
        let roots = roots_of(alloc, tiles, &types, grid.places())?;
        let locs = Locs::of_roots(alloc, roots.as_slice())?;
        Ok(Layout { types, grid, locs })
    }

    /// Tells a caller's proof what holds of all layouts. It does nothing.
    pub fn law(&self)
        ensures { IsLayout self.now }
    {
        let _ = self.grid.len();
    }

    /// The locations.
    pub fn locs(&self) -> &Locs
        ensures { result.now ≡ self.now.locs }
    {
        &self.locs
    }

    /// How many columns and rows the grid has.
    pub fn size(&self) -> (u32, u32)
        ensures { IsSize self.now.places result }
    {
        self.grid.size()
    }

    /// The class, in its block type, of a pin of the tile at a location.
    pub fn class_of(&self, loc: LocAt, port: u32, bit: u32) -> Option<u32>
        ensures { MatchOption result ((class : ℕ) → HasClassAt self.now loc port bit class → ⊥)
            (HasClassAt self.now loc port bit) }
    {
        self.grid.law();
        let root = self.grid.root_at(loc.x, loc.y)?;
        let pin = SubPin {
            sub: loc.sub,
            port,
            bit,
        };
        self.types.block_type(root.block_type)?.class_of(pin)
    }

    /// The number of the location at (x, y) with this sub.
    fn loc_of(&self, x: u32, y: u32, sub: u32) -> Option<u32>
        requires few { length self.now.locs ≤ 2 ^ 20 }
        requires sub { HasSub self.now.locs x y sub }
        ensures { result ≡ loc_at self.now.locs x y sub }
    {
        subs_follow();
        let first = self.locs.first_at(x, y)?;
        Some(first + sub)
    }
}

/// The pin of a tile at a location.
fn pin_on(loc: u32, pin: ClassedPin) -> FoundPin
    ensures loc { result.pin.loc ≡ loc }
    ensures port { result.pin.port ≡ pin.pin.port }
    ensures bit { result.pin.bit ≡ pin.pin.bit }
    ensures side { result.is_output ≡ pin.is_output }
{
    FoundPin {
        pin: TilePin {
            loc,
            port: pin.pin.port,
            bit: pin.pin.bit,
        },
        is_output: pin.is_output,
    }
}

impl PinTable for Layout {
    ghost pin_of = { pin_in };

    fn pin_at(&self, x: u32, y: u32, ptc: u32) -> Option<FoundPin> {
        self.grid.law();
        let root = self.grid.root_at(x, y)?;
        let pin = self.types.block_type(root.block_type)?.pin(ptc)?;
        let loc = self.loc_of(root.x, root.y, pin.pin.sub)?;
        Some(pin_on(loc, pin))
    }
}
