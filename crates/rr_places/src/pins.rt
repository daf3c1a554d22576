ghost use Rattle.std.specs.Prelude.{◌≡◌, ◌⊎◌, map, IfOk, IfErr, OnOk, MatchOption};
ghost use Rattle.std.specs.Option.{option_copied};
ghost use Rattle.vtr_base.specs.Lists.{Has};
ghost use Rattle.rr_places.specs.PinTexts.{NamesPin};
ghost use Rattle.rr_places.specs.Pins.{AreClasses, SaysPin, ptc_of, IsBadPin, IsSeen, NotesClass, NamesNoPin};
ghost use Rattle.rr_places.specs.PinElems.{seen_pin};
ghost use Rattle.rr_places.specs.Reading.{AreRead, IsFirstRefused, OrMemory};

use crate::error::PlaceError;
use crate::keyed::{add, find};
use crate::pin_text::{NamedPin, SubPin, named_pin};
use crate::tile_names::TilePorts;
use elem_reading::number_within;
use elem_text::Elem;
use indexmap::IndexMap;
use std::alloc::{AllocError, Global};

/// A pin of a block type: the pin of its tile, whether that leads out of the tile, and the number
/// of the pin class that lists it, from 0 in the block type.
#[derive(Clone, Copy, Debug, PartialEq, Eq, Drop)]
pub struct ClassedPin {
    pub pin: SubPin,
    pub is_output: bool,
    pub class: u32,
}

/// The pins of a block type by their numbers, and the class of each pin of its tile that is named.
#[derive(Drop)]
pub(crate) struct Pins {
    pub(crate) by_ptc: IndexMap<u32, ClassedPin>,
    pub(crate) classes: IndexMap<SubPin, u32>,
}

/// A `pin` element with the number of its class.
#[derive(Clone, Copy)]
pub(crate) struct PinElem<'a> {
    pub(crate) class: u32,
    pub(crate) elem: &'a Elem,
}

/// The pins that elements say.
pub(crate) fn list_pins(
    alloc: Global,
    tile: Option<&TilePorts<'_>>,
    elems: &[PinElem<'_>],
) -> Result<Pins, PlaceError>
    ensures read { IfOk result (λ pins.
        AreRead (SaysPin (option_copied tile.entry)) ptc_of (map seen_pin elems.now)
        pins.by_ptc.entries) }
    ensures classes { IfOk result (λ pins. AreClasses pins.by_ptc.entries pins.classes.entries) }
    ensures refused { IfErr result (OrMemory
        (IsFirstRefused (SaysPin (option_copied tile.entry)) ptc_of
        (IsBadPin (option_copied tile.entry)) (map seen_pin elems.now))) }
{
    let mut by_ptc = IndexMap::new(alloc);
    let mut classes = IndexMap::new(alloc);
    for item in elems {
        let (ptc, pin) = next_pin(alloc, &by_ptc, tile, item.class, item.elem)?;
        add(&mut by_ptc, ptc, pin)?;
        note_class(&mut classes, pin)?;
    }
    Ok(Pins { by_ptc, classes })
}

/// The pin that an element says, with its number.
fn next_pin(
    alloc: Global,
    by_ptc: &IndexMap<u32, ClassedPin>,
    tile: Option<&TilePorts<'_>>,
    class: u32,
    elem: &Elem,
) -> Result<(u32, ClassedPin), PlaceError>
    ensures said { IfOk result (λ pin.
        SaysPin (option_copied tile.entry) (class, elem.now) pin
        × (IsSeen by_ptc.now.entries pin.0 → ⊥)) }
    ensures refused { IfErr result (OrMemory
        (IsBadPin (option_copied tile.entry) by_ptc.now.entries (class, elem.now))) }
{
    let Some(ptc) = number_within(elem, b"ptc", i32::MAX as u32) else {
        return Err(PlaceError::BadItem { place: elem.place });
    };
    let Some(named) = new_pin(by_ptc, tile, ptc, elem.text.as_bytes()) else {
        let text = elem.text.copy(alloc)?;
        return Err(PlaceError::UnknownPin { text });
    };
    let pin = ClassedPin {
        pin: named.pin,
        is_output: named.is_output,
        class,
    };
    Ok((ptc, pin))
}

/// The pin that a text names, where its number is new.
fn new_pin(
    by_ptc: &IndexMap<u32, ClassedPin>,
    tile: Option<&TilePorts<'_>>,
    ptc: u32,
    text: &[u8],
) -> Option<NamedPin>
    ensures { MatchOption result
        (IsSeen by_ptc.now.entries ptc ⊎ NamesNoPin (option_copied tile.entry) text.now)
        (λ named. NamesPin (option_copied tile.entry) text.now named
        × (IsSeen by_ptc.now.entries ptc → ⊥)) }
{
    match find(by_ptc, ptc) {
        Some(_) => None,
        None => named_pin(tile, text),
    }
}

/// Notes the class of a pin, unless one is known.
fn note_class(classes: &mut IndexMap<SubPin, u32>, pin: ClassedPin) -> Result<(), AllocError>
    ensures { OnOk result (NotesClass classes.old.entries pin classes.new.entries) }
{
    match find(classes, pin.pin) {
        Some(_) => Ok(()),
        None => add(classes, pin.pin, pin.class),
    }
}
