ghost use Rattle.std.specs.Prelude.{◌≡◌, ◌∷◌, [], IfOk, MatchOption};
ghost use Rattle.std.specs.List.{flat_map};
ghost use Rattle.mode_edges.specs.PinWords.{ReadsPins, ReadsNoPins, ReadsPin};
ghost use Rattle.mode_edges.specs.Readers.{pins_of};
ghost use Rattle.mode_edges.specs.declared.pin.LocalPin.{LocalPin};

use crate::groups::{groups, pin_count};
use crate::names::{ModeNames, PinGroup};
use crate::pin::{EdgeEnd, LocalPin};
use crate::walk::PinWalk;
use std::alloc::{AllocError, Global};

impl<'n, 'a> ModeNames<'n, 'a> {
    /// The pins that a list of pin words names, word by word, where each names pins on the right
    /// side for the role (VTR architecture reference, "Interconnect": the ports of `direct`,
    /// `complete`, `mux` and `pack_pattern`). The mode's names may be asked as often as wanted.
    pub fn read_pins(
        &self,
        alloc: Global,
        role: EdgeEnd,
        text: &[u8],
    ) -> Result<Option<Vec<LocalPin>>, AllocError>
        ensures { IfOk result (λ r. MatchOption r (ReadsNoPins self.now.block self.now.mode role
            text.now) (λ pins. ReadsPins self.now.block self.now.mode role text.now pins.items)) }
    {
        let Some(found) = groups(alloc, self, role, text)? else {
            return Ok(None);
        };
        Ok(Some(list_pins(alloc, found.as_slice())?))
    }

    /// The pin that a list of pin words names, where it names one. It is quick at words that name
    /// very many.
    pub fn read_pin(
        &self,
        alloc: Global,
        role: EdgeEnd,
        text: &[u8],
    ) -> Result<Option<LocalPin>, AllocError>
        ensures { IfOk result (λ r. MatchOption r ((pin : LocalPin) → ReadsPin self.now.block
            self.now.mode role text.now pin → ⊥) (λ pin. ReadsPin self.now.block self.now.mode role
            text.now pin)) }
    {
        let Some(found) = groups(alloc, self, role, text)? else {
            return Ok(None);
        };
        Ok(only_pin(found.as_slice()))
    }
}

/// The pins of groups, in order.
fn list_pins(alloc: Global, groups: &[PinGroup]) -> Result<Vec<LocalPin>, AllocError>
    ensures { IfOk result (λ pins. pins.items ≡ flat_map pins_of groups.now) }
{
    let mut pins = Vec::new(alloc);
    let mut walk = PinWalk::new(groups);
    while let Some(pin) = walk.next_pin() {
        pins.push(pin)?;
    }
    Ok(pins)
}

/// The pin of groups that have one.
fn only_pin(groups: &[PinGroup]) -> Option<LocalPin>
    ensures { MatchOption result ((pin : LocalPin) → flat_map pins_of groups.now ≡ pin ∷ [] → ⊥)
        (λ pin. flat_map pins_of groups.now ≡ pin ∷ []) }
{
    if pin_count(groups) != 1 {
        return None;
    }
    let mut walk = PinWalk::new(groups);
    walk.next_pin()
}
