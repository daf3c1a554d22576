ghost use Rattle.std.specs.Prelude.{◌≡◌, ◌<◌, ◌++◌, ℕ, length, map, IfOk, OnOk};
ghost use Rattle.std.specs.List.{All};
ghost use Rattle.vtr_base.specs.Lists.{Has};
ghost use Rattle.arch_types.specs.declared.arch.CellModel.{CellModel};
ghost use Rattle.blif_pins.specs.Seen.{said, HasSide};
ghost use Rattle.blif_items.specs.Items.{list_of, outs_of};
ghost use Rattle.blif_items.specs.Pins.{IsCellName, PlacesPin, PlacesPins};

use crate::PinAt;
use blif_books::Book;
use blif_boxes::Actual;
use blif_pins::BoxPin;
use itoa::Buffer;
use std::alloc::{AllocError, Global};
use vtr_base::Text;

/// The connected pins of a box, with their nets by number.
pub fn place_pins(
    alloc: Global,
    book: &mut Book,
    listed: &[BoxPin<'_>],
) -> Result<Vec<PinAt>, AllocError>
    ensures { IfOk result (λ pins. (model : CellModel) → All (HasSide model) listed.now
        → PlacesPins model (map said listed.now) book.old book.new pins.items) }
{
    let mut pins = Vec::new(alloc);
    for pin in listed {
        push_placed(&mut pins, place_pin(alloc, book, pin)?)?;
    }
    Ok(pins)
}

/// Appends a pin, where it is connected.
fn push_placed(pins: &mut Vec<PinAt>, placed: Option<PinAt>) -> Result<(), AllocError>
    ensures { OnOk result (pins.new.items ≡ pins.old.items ++ list_of placed) }
{
    match placed {
        Some(pin) => {
            pins.push(pin)?;
            Ok(())
        }
        None => Ok(()),
    }
}

/// A pin of a box with its net by number, where it has one.
fn place_pin(alloc: Global, book: &mut Book, pin: &BoxPin<'_>) -> Result<Option<PinAt>, AllocError>
    ensures { IfOk result (λ placed. (model : CellModel) → HasSide model pin.now
        → PlacesPin model (said pin.now) (said pin.now).actual book.old book.new (list_of placed)) }
{
    match pin.word.actual {
        Actual::Unconnected => Ok(None),
        Actual::Net(name) => Ok(Some(PinAt {
            port: Text::from_str(alloc, pin.word.port)?,
            bit: pin.word.bit,
            net: book.mention(name)?,
            is_output: pin.is_output,
        })),
    }
}

/// The nets at the outputs among connected pins.
pub fn output_nets(alloc: Global, pins: &[PinAt]) -> Result<Vec<u32>, AllocError>
    ensures { IfOk result (λ nets. nets.items ≡ outs_of pins.now) }
{
    pins.iter()
        .filter(|pin| pin.is_output)
        .map(|pin| pin.net)
        .collect(alloc)
}

/// The name of a box before which so many stand.
pub fn cell_name(alloc: Global, book: &Book, outs: &[u32], boxes: u32) -> Result<Text, AllocError>
    requires { (n : ℕ) → Has outs.now n → n < length book.now.nets }
    ensures { IfOk result (λ name. IsCellName book.now.nets boxes outs.now name) }
{
    if let [net, ..] = outs {
        return Text::from_str(alloc, book.nets().text(*net));
    }
    let mut name = Text::from_str(alloc, "box:")?;
    name.push_str(Buffer::new().format(boxes))?;
    Ok(name)
}
