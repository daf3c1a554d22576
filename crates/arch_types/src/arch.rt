ghost use Rattle.std.specs.Prelude.{◌≡◌};
ghost use Rattle.arch_types.specs.WellFormed.{IsWellFormed};

use crate::{PbType, Port};
use sqlite_items::Items;
use std::marker::Model;
use vtr_base::Text;

/// An architecture: what its file says of models, tiles, layouts and block types, in file order.
/// It keeps all rules of architecture files, which `law` hands to whoever holds one.
#[derive(Debug, Drop)]
pub struct Arch {
    pub models: Items<CellModel>,
    pub tiles: Items<Tile>,
    pub layouts: Items<Layout>,
    pub blocks: Items<PbType>,
}

impl Model for Arch {
    ghost use Rattle.arch_types.specs.declared.arch.ArchParts.{ArchParts};

    ghost Value = { ArchParts };

    ghost use Rattle.std.specs.Coded.{codes};
    ghost use Rattle.arch_types.specs.contracts.block.PbType as pb_type;

    ghost coded = { Prim.hlevel (codes, pb_type.the_row.coded) };

    ghost use Rattle.arch_types.specs.WellFormed.{IsWellFormed};

    ghost view = { λ a. record {
      models = a.models;
      tiles = a.tiles;
      layouts = a.layouts;
      blocks = a.blocks;
    } };

    ghost invariant = { λ a. IsWellFormed (record
        { models = a.models; tiles = a.tiles; layouts = a.layouts; blocks = a.blocks }) };
}

impl Arch {
    /// A law of architectures, for callers' proofs: what every one keeps. It does nothing.
    pub fn law(&self)
        ensures { IsWellFormed self.now }
    {
        let _ = &self.blocks;
    }
}

/// The parts of an architecture, of which nothing is known yet.
#[derive(Debug, Drop)]
pub struct ArchParts {
    pub models: Items<CellModel>,
    pub tiles: Items<Tile>,
    pub layouts: Items<Layout>,
    pub blocks: Items<PbType>,
}

impl ArchParts {
    /// The architecture of these parts.
    pub fn into_arch(self) -> Arch
        requires { IsWellFormed self }
        ensures { result ≡ self }
    {
        Arch {
            models: self.models,
            tiles: self.tiles,
            layouts: self.layouts,
            blocks: self.blocks,
        }
    }
}

/// A `model`: a black box by its name and the names of its ports.
#[derive(Debug, Drop)]
pub struct CellModel {
    pub name: Text,
    pub ins: Items<Text>,
    pub outs: Items<Text>,
}

/// A `tile` with its one `sub_tile`.
#[derive(Debug, Drop)]
pub struct Tile {
    pub name: Text,
    pub sub_name: Text,
    /// How many locations one place of the tile has.
    pub capacity: u32,
    /// The block types that may stand at such a location, by their number.
    pub sites: Items<u32>,
    pub ports: Items<Port>,
}

/// A `fixed_layout`: its size in grid places, and its `single` elements.
#[derive(Debug, Drop)]
pub struct Layout {
    pub width: u32,
    pub height: u32,
    pub singles: Items<Single>,
}

/// A `single`: one tile at one grid place.
#[derive(Debug, Drop)]
pub struct Single {
    pub tile: Text,
    pub x: u32,
    pub y: u32,
    pub priority: i64,
    /// The text of its `fasm_prefix`; empty where there is none.
    pub prefix: Text,
}
