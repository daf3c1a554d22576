ghost use Rattle.std.specs.Prelude.{◌≡◌, ◌++◌, ◌∷◌, [], List, map, IfOk, MatchOption};
ghost use Rattle.std.specs.List.{All};
ghost use Rattle.blif_boxes.specs.Pins.{PinSaid};
ghost use Rattle.blif_elems.specs.Seen.{texts};
ghost use Rattle.blif_pins.specs.Keys.{AreTaken};
ghost use Rattle.blif_pins.specs.Pins.{ArePins, IsNextPin};
ghost use Rattle.blif_pins.specs.Seen.{said, HasSide};

use crate::keys::{Keys, take_key};
use crate::ports::PortTable;
use blif_boxes::{PinWord, one_reading, read_pin_word};
use indexmap::IndexSet;
use std::alloc::{AllocError, Global};

/// A pin of a box: a bit of a port of its model, and what stands there.
#[derive(Clone, Copy, Debug)]
pub struct BoxPin<'a> {
    pub word: PinWord<'a>,
    /// Whether the port is an output. Where an input has its name too, it is.
    pub is_output: bool,
}

/// The pins that words say, if they do.
pub(crate) fn pins_of<'w>(
    alloc: Global,
    ports: &PortTable<'_>,
    words: &[&'w str],
) -> Result<Option<Vec<BoxPin<'w>>>, AllocError>
    ensures { IfOk result (λ found. MatchOption found
        ((pins : List PinSaid) → ArePins ports.now.model (texts words.now) pins → ⊥)
        (λ pins. ArePins ports.now.model (texts words.now) (map said pins.items)
        × All (HasSide ports.now.model) pins.items)) }
{
    one_reading();
    let mut pins = Vec::new(alloc);
    let mut keys = IndexSet::new(alloc);
    for word in words {
        let Some(pin) = next_pin(ports, &mut keys, word)? else {
            return Ok(None);
        };
        pins.push(pin)?;
    }
    Ok(Some(pins))
}

/// The pin that a word says, if it does, behind the pins whose bits are taken.
fn next_pin<'w>(
    ports: &PortTable<'_>,
    keys: &mut Keys,
    word: &'w str,
) -> Result<Option<BoxPin<'w>>, AllocError>
    ensures { IfOk result (λ found. (before : List PinSaid)
        → AreTaken ports.now.names keys.old.keys before
        → MatchOption found ((p : PinSaid) → IsNextPin ports.now.model before word.now p → ⊥)
        (λ pin. IsNextPin ports.now.model before word.now (said pin)
        × HasSide ports.now.model pin
        × AreTaken ports.now.names keys.new.keys (before ++ said pin ∷ []))) }
{
    one_reading();
    ports.law();
    let Some(said) = read_pin_word(word) else {
        return Ok(None);
    };
    let Some(port) = ports.find(said.port.as_bytes()) else {
        return Ok(None);
    };
    if !take_key(keys, (port.number, said.bit))? {
        return Ok(None);
    }
    Ok(Some(BoxPin {
        word: said,
        is_output: port.is_output,
    }))
}
