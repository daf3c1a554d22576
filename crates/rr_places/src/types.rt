ghost use Rattle.std.specs.Prelude.{◌≡◌, ℕ, Option, map, IfOk, IfErr, MatchOption};
ghost use Rattle.vtr_base.specs.Lists.{Has};
ghost use Rattle.rr_places.specs.Pins.{HasClass};
ghost use Rattle.rr_places.specs.Types.{TypeParts, IsTileName, ArePins, ArePinsRefused, SaysType, IsKnown, HasHead, LacksHead, IsBadType, AreTypes, IsTypeRefused, type_id};
ghost use Rattle.rr_places.specs.Reading.{AreRead, IsFirstRefused, OrMemory};

use crate::error::PlaceError;
use crate::keyed::{add, find};
use crate::pin_elems::classed_pins;
use crate::pin_text::SubPin;
use crate::pins::{ClassedPin, list_pins};
use crate::tile_names::TileNames;
use arch_types::Arch;
use elem_attrs::attribute;
use elem_reading::{kids_under, number_within};
use elem_text::Elem;
use indexmap::IndexMap;
use std::alloc::Global;
use std::marker::Model;
use vtr_base::Text;

/// A block type of a routing graph: its tile, by its number in the architecture, and its pins by
/// their numbers. The block type `EMPTY` has no tile.
#[derive(Drop)]
pub struct BlockType {
    tile: Option<u32>,
    by_ptc: IndexMap<u32, ClassedPin>,
    classes: IndexMap<SubPin, u32>,
}

impl Model for BlockType {
    ghost use Rattle.rr_places.specs.Pins.{AreClasses};
    ghost use Rattle.rr_places.specs.Types.{TypeParts as Parts};

    ghost Value = { Parts };

    ghost view = { λ t. record { tile = t.tile; pins = t.by_ptc.entries } };

    ghost invariant = { λ t. AreClasses t.by_ptc.entries t.classes.entries };
}

impl BlockType {
    /// The number of its tile, none of `EMPTY`.
    pub fn tile(&self) -> Option<u32>
        ensures { result ≡ self.now.tile }
    {
        self.tile
    }

    /// The pin of this number.
    pub fn pin(&self, ptc: u32) -> Option<ClassedPin>
        ensures { MatchOption result ((pin : ClassedPin) → Has self.now.pins (ptc, pin) → ⊥)
            (λ pin. Has self.now.pins (ptc, pin)) }
    {
        let pin = *find(&self.by_ptc, ptc)?;
        Some(pin)
    }

    /// The number of the pin class that first lists this pin of the tile.
    pub fn class_of(&self, pin: SubPin) -> Option<u32>
        ensures { MatchOption result ((class : ℕ) → HasClass self.now.pins pin class → ⊥)
            (HasClass self.now.pins pin) }
    {
        let class = *find(&self.classes, pin)?;
        Some(class)
    }
}

/// The block types of a routing graph by their ids.
#[derive(Drop)]
pub struct BlockTypes {
    by_id: IndexMap<u32, BlockType>,
}

impl Model for BlockTypes {
    ghost use Rattle.std.specs.Prelude.{List};
    ghost use Rattle.rr_places.specs.Types.{NumberedType};

    ghost Value = { List NumberedType };

    ghost view = { λ t. t.by_id.entries };
}

impl BlockTypes {
    /// The block type of this id.
    pub fn block_type(&self, id: u32) -> Option<&BlockType>
        ensures { MatchOption result ((type : TypeParts) → Has self.now (id, type) → ⊥)
            (λ type. Has self.now (id, type.now)) }
    {
        find(&self.by_id, id)
    }
}

/// The block types of a routing graph file, from its root.
pub fn read_types(alloc: Global, root: &Elem, arch: &Arch) -> Result<BlockTypes, PlaceError>
    ensures read { IfOk result (AreTypes arch.now.tiles root.now) }
    ensures refused { IfErr result (OrMemory (IsTypeRefused arch.now.tiles root.now)) }
{
    let tiles = TileNames::new(alloc, arch)?;
    let elems = kids_under(alloc, root, b"block_types", b"block_type")?;
    list_types(alloc, &tiles, &elems)
}

/// The block types that elements say.
fn list_types(
    alloc: Global,
    tiles: &TileNames<'_>,
    elems: &[&Elem],
) -> Result<BlockTypes, PlaceError>
    ensures read { IfOk result
        (AreRead (SaysType tiles.now) type_id (map (λ e. e.now) elems.now)) }
    ensures refused { IfErr result (OrMemory (IsFirstRefused (SaysType tiles.now) type_id
        (IsBadType tiles.now) (map (λ e. e.now) elems.now))) }
{
    let mut by_id = IndexMap::new(alloc);
    for elem in elems {
        let (id, block) = next_type(alloc, &by_id, tiles, elem)?;
        add(&mut by_id, id, block)?;
    }
    Ok(BlockTypes { by_id })
}

/// The block type that an element says, with its id.
fn next_type(
    alloc: Global,
    by_id: &IndexMap<u32, BlockType>,
    tiles: &TileNames<'_>,
    elem: &Elem,
) -> Result<(u32, BlockType), PlaceError>
    ensures said { IfOk result (λ type. SaysType tiles.now elem.now (type.0, type.1)
        × (IsKnown by_id.now.entries type.0 → ⊥)) }
    ensures refused { IfErr result
        (OrMemory (IsBadType tiles.now by_id.now.entries elem.now)) }
{
    let Some((id, name)) = head_of(by_id, elem) else {
        return Err(PlaceError::BadItem { place: elem.place });
    };
    let Some(tile) = tile_named(tiles, name) else {
        return Err(PlaceError::UnknownBlock { id });
    };
    let block = read_block(alloc, tiles, tile, elem)?;
    Ok((id, block))
}

/// The id and the name of a block type, where the id is new.
fn head_of<'a>(by_id: &IndexMap<u32, BlockType>, elem: &'a Elem) -> Option<(u32, &'a Text)>
    ensures { MatchOption result (LacksHead by_id.now.entries elem.now)
        (λ head. HasHead by_id.now.entries elem.now head.0 head.1.now) }
{
    let Some(id) = number_within(elem, b"id", i32::MAX as u32) else {
        return None;
    };
    if let Some(_) = find(by_id, id) {
        return None;
    }
    let Some(name) = attribute(elem, b"name") else {
        return None;
    };
    Some((id, name))
}

/// The tile of this name, or none of `EMPTY`.
fn tile_named(tiles: &TileNames<'_>, name: &Text) -> Option<Option<u32>>
    ensures { MatchOption result
        ((tile : Option ℕ) → IsTileName tiles.now name.now tile → ⊥)
        (IsTileName tiles.now name.now) }
{
    if name.is(b"EMPTY") {
        return Some(None);
    }
    let Some(tile) = tiles.find(name.as_bytes()) else {
        return None;
    };
    Some(Some(tile))
}

/// The block type with the pins of this element.
fn read_block(
    alloc: Global,
    tiles: &TileNames<'_>,
    tile: Option<u32>,
    elem: &Elem,
) -> Result<BlockType, PlaceError>
    ensures tile { IfOk result (λ block. block.tile ≡ tile) }
    ensures pins { IfOk result (λ block. ArePins tiles.now tile elem.now block.pins) }
    ensures refused { IfErr result (OrMemory (ArePinsRefused tiles.now tile elem.now)) }
{
    let items = classed_pins(alloc, elem)?;
    let pins = list_pins(alloc, tiles.tile(tile), &items)?;
    Ok(BlockType {
        tile,
        by_ptc: pins.by_ptc,
        classes: pins.classes,
    })
}
