ghost use Rattle.std.specs.Prelude.{◌≡◌, ◌<◌, ◌^◌, ℕ, Some, length, slice_get, IfOk, MatchOption};
ghost use Rattle.std.specs.Option.{option_copied};
ghost use Rattle.vtr_base.specs.Lists.{Has, IsFirstPlace};
ghost use Rattle.arch_types.specs.Blocks.{ArePorts, port_names};
ghost use Rattle.arch_types.specs.Names.{AreDifferent};
ghost use Rattle.arch_types.specs.Tiles.{tile_names};
ghost use Rattle.rr_places.specs.Types.{tile_at};

use arch_types::{Arch, Port, Tile};
use names::LentNames;
use std::alloc::{AllocError, Global};
use std::marker::Model;

/// A tile with its ports by name. Contracts see the tile.
#[derive(Drop)]
pub(crate) struct TilePorts<'a> {
    tile: &'a Tile,
    places: LentNames<'a>,
}

impl<'a> Model for TilePorts<'a> {
    ghost use Rattle.std.specs.Prelude.{◌≡◌};
    ghost use Rattle.arch_types.specs.declared.arch.Tile.{Tile as Seen};
    ghost use Rattle.arch_types.specs.Blocks.{port_names};

    ghost Value = { Seen };

    ghost view = { λ t. t.tile.now };

    ghost invariant = { λ t. t.places ≡ port_names t.tile.now.ports };
}

impl<'a> TilePorts<'a> {
    fn new(alloc: Global, tile: &'a Tile) -> Result<TilePorts<'a>, AllocError>
        requires { ArePorts tile.now.ports }
        ensures { IfOk result (λ ports. ports ≡ tile.now) }
    {
        let places = port_places(alloc, tile.ports.as_slice())?;
        Ok(TilePorts { tile, places })
    }

    pub(crate) fn tile(&self) -> &'a Tile
        ensures { result.now ≡ self.now }
    {
        self.tile
    }

    /// The port of this name, and its place.
    pub(crate) fn find_port(&self, name: &[u8]) -> Option<(u32, &'a Port)>
        ensures { MatchOption result
            ((place : ℕ) → IsFirstPlace (port_names self.now.ports) name.now place → ⊥)
            (λ found. IsFirstPlace (port_names self.now.ports) name.now found.0
            × (slice_get self.now.ports found.0 ≡ Some found.1.now)) }
    {
        let place = self.places.find(name)?;
        Some((place, &self.tile.ports.as_slice()[place as usize]))
    }
}

/// The tiles of an architecture by name, each with its ports by name. Contracts see the tiles.
#[derive(Drop)]
pub(crate) struct TileNames<'a> {
    places: LentNames<'a>,
    tiles: Vec<TilePorts<'a>>,
}

impl<'a> Model for TileNames<'a> {
    ghost use Rattle.std.specs.Prelude.{◌≡◌, List};
    ghost use Rattle.arch_types.specs.declared.arch.Tile.{Tile as Seen};
    ghost use Rattle.arch_types.specs.Tiles.{tile_names};

    ghost Value = { List Seen };

    ghost view = { λ t. t.tiles.items };

    ghost invariant = { λ t. t.places ≡ tile_names t.tiles.items };
}

impl<'a> TileNames<'a> {
    pub(crate) fn new(alloc: Global, arch: &'a Arch) -> Result<TileNames<'a>, AllocError>
        ensures { IfOk result (λ names. names ≡ arch.now.tiles) }
    {
        arch.law();
        let tiles = arch.tiles.as_slice();
        Ok(TileNames {
            places: tile_places(alloc, tiles)?,
            tiles: ports_of_all(alloc, tiles)?,
        })
    }

    /// The number of the tile of this name.
    pub(crate) fn find(&self, name: &[u8]) -> Option<u32>
        ensures { MatchOption result
            ((place : ℕ) → IsFirstPlace (tile_names self.now) name.now place → ⊥)
            (IsFirstPlace (tile_names self.now) name.now) }
    {
        self.places.find(name)
    }

    /// The tile of this number.
    pub(crate) fn tile(&self, number: Option<u32>) -> Option<&TilePorts<'a>>
        ensures { option_copied result ≡ tile_at self.now number }
    {
        match number {
            Some(number) => self.tiles.get(number as usize),
            None => None,
        }
    }
}

/// The tiles' names.
fn tile_places<'a>(alloc: Global, tiles: &'a [Tile]) -> Result<LentNames<'a>, AllocError>
    requires different { AreDifferent (tile_names tiles.now) }
    requires few { length tiles.now < 2 ^ 32 }
    ensures { IfOk result (λ places. places ≡ tile_names tiles.now) }
{
    let mut places = LentNames::new(alloc);
    for tile in tiles {
        places.add(tile.name.as_bytes())?;
    }
    Ok(places)
}

/// The ports' names.
fn port_places<'a>(alloc: Global, ports: &'a [Port]) -> Result<LentNames<'a>, AllocError>
    requires { ArePorts ports.now }
    ensures { IfOk result (λ places. places ≡ port_names ports.now) }
{
    let mut places = LentNames::new(alloc);
    for port in ports {
        places.add(port.name.as_bytes())?;
    }
    Ok(places)
}

/// Each tile with its ports by name.
fn ports_of_all<'a>(alloc: Global, tiles: &'a [Tile]) -> Result<Vec<TilePorts<'a>>, AllocError>
    requires { (tile : _) → Has tiles.now tile → ArePorts tile.ports }
    ensures { IfOk result (λ all. all.items ≡ tiles.now) }
{
    let mut all = Vec::new(alloc);
    for tile in tiles {
        all.push(TilePorts::new(alloc, tile)?)?;
    }
    Ok(all)
}
