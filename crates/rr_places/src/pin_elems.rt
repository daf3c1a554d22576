ghost use Rattle.std.specs.Prelude.{◌≡◌, ◌++◌, map, codes, IfOk, OnOk};
ghost use Rattle.elem_reading.specs.Kids.{kids_named as named};
ghost use Rattle.rr_places.specs.Pins.{classed_pins as pins_of, pins_from};
ghost use Rattle.rr_places.specs.PinElems.{seen_pin};

use crate::pins::PinElem;
use elem_attrs::has_tag;
use elem_reading::kids_named;
use elem_text::Elem;
use std::alloc::{AllocError, Global};

/// The `pin` elements of a block type with the numbers of their classes.
pub(crate) fn classed_pins<'a>(
    alloc: Global,
    elem: &'a Elem,
) -> Result<Vec<PinElem<'a>>, AllocError>
    ensures { IfOk result (λ found. map seen_pin found.items ≡ pins_of elem.now) }
{
    let classes = kids_named(alloc, elem, b"pin_class")?;
    pins_of_classes(alloc, &classes)
}

/// The `pin` elements of these classes, which are numbered from 0.
fn pins_of_classes<'a>(alloc: Global, classes: &[&'a Elem]) -> Result<Vec<PinElem<'a>>, AllocError>
    ensures { IfOk result (λ found.
        map seen_pin found.items ≡ pins_from 0 (map (λ e. e.now) classes.now)) }
{
    let mut found = Vec::new(alloc);
    for (place, class) in classes.iter().enumerate() {
        add_pins(&mut found, class_number(place)?, *class)?;
    }
    Ok(found)
}

/// Adds the `pin` elements of a class.
fn add_pins<'a>(found: &mut Vec<PinElem<'a>>, class: u32, elem: &'a Elem) -> Result<(), AllocError>
    ensures { OnOk result (map seen_pin found.new.items ≡ map seen_pin found.old.items
        ++ map (λ pin. (class, pin)) (named elem.now (codes "pin"))) }
{
    for kid in elem.kids.as_slice() {
        if has_tag(kid, b"pin") {
            found.push(PinElem { class, elem: kid })?;
        }
    }
    Ok(())
}

/// A place in a list as a number of 32 bits. A list of more than 2^32 is told as want of memory.
fn class_number(place: usize) -> Result<u32, AllocError>
    ensures { IfOk result (λ n. n ≡ place) }
{
    match u32::try_from(place) {
        Ok(number) => Ok(number),
        Err(_) => Err(AllocError),
    }
}
