ghost use Rattle.std.specs.Prelude.{◌≡◌, ◌↔◌, IsTrue, IfOk};
ghost use Rattle.vtr_base.specs.Lists.{Has};
ghost use Rattle.list_laws.specs.Orders.{HaveSame};
ghost use Rattle.mode_edges.specs.declared.pin.LocalPin.{LocalPin as PinSaid};
ghost use Rattle.pattern_marks.specs.Marks.{AreHeld, Marks};

use arch_types::Pattern;
use indexmap::IndexSet;
use mode_edges::{EdgeEnd, LocalPin, ModeNames, one_reading};
use std::alloc::{AllocError, Global};
use std::marker::Model;

/// The pins that a `pack_pattern` of a mode names: those of its `in_port`, and those of its
/// `out_port`. A look-up takes the same time however many there are.
#[derive(Drop)]
pub struct PatternPins {
    ins: IndexSet<LocalPin>,
    outs: IndexSet<LocalPin>,
}

impl Model for PatternPins {
    ghost use Rattle.pattern_marks.specs.Marks.{NamedPins};

    ghost Value = { NamedPins };

    ghost view = { λ p. record { ins = p.ins.keys; outs = p.outs.keys } };
}

impl PatternPins {
    /// Whether the pattern marks an edge from the one pin to the other.
    pub fn marks(&self, src: LocalPin, dst: LocalPin) -> bool
        ensures { IsTrue result ↔ (Has self.now.ins src × Has self.now.outs dst) }
    {
        has_pin(&self.ins, src) && has_pin(&self.outs, dst)
    }
}

/// The pins that a pattern names, where `names` are those of its interconnect's mode. Where a word
/// of it names no pins, or pins on the wrong side, it marks nothing (VTR architecture reference,
/// `pack_pattern`).
pub fn pattern_pins(
    alloc: Global,
    names: &ModeNames<'_, '_>,
    pattern: &Pattern,
) -> Result<PatternPins, AllocError>
    ensures { IfOk result (λ pins. (src dst : PinSaid) → (Has pins.ins src × Has pins.outs dst)
        ↔ Marks names.now.block names.now.mode pattern.now src dst) }
{
    let ins = held(alloc, names, EdgeEnd::Source, pattern.in_port.as_bytes())?;
    let outs = held(alloc, names, EdgeEnd::End, pattern.out_port.as_bytes())?;
    Ok(PatternPins { ins, outs })
}

/// The pins that a text holds; none where one of its words names none.
fn held(
    alloc: Global,
    names: &ModeNames<'_, '_>,
    role: EdgeEnd,
    text: &[u8],
) -> Result<IndexSet<LocalPin>, AllocError>
    ensures { IfOk result (λ set. AreHeld names.now.block names.now.mode role text.now set.keys) }
{
    one_reading();
    let Some(pins) = names.read_pins(alloc, role, text)? else {
        return Ok(IndexSet::new(alloc));
    };
    Ok(set_of(alloc, pins.as_slice())?)
}

/// The pins as a set.
fn set_of(alloc: Global, pins: &[LocalPin]) -> Result<IndexSet<LocalPin>, AllocError>
    ensures { IfOk result (λ set. HaveSame set.keys pins.now) }
{
    let mut set = IndexSet::new(alloc);
    for pin in pins {
        set.insert(*pin)?;
    }
    Ok(set)
}

/// Whether a pin is one of the set.
fn has_pin(set: &IndexSet<LocalPin>, pin: LocalPin) -> bool
    ensures { IsTrue result ↔ Has set.now.keys pin }
{
    set.contains(&pin)
}
