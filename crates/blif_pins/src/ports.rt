ghost use Rattle.std.specs.Prelude.{◌≡◌, IfOk, OnOk, MatchOption};
ghost use Rattle.blif_pins.specs.Pins.{IsPort};
ghost use Rattle.blif_pins.specs.Ports.{AddsNames, Fits, IsPortAt};
ghost use Rattle.names.specs.Naming.{AddsName};

use arch_types::CellModel;
use names::LentNames;
use std::alloc::{AllocError, Global};
use std::marker::Model;
use vtr_base::Text;

/// A model with its ports by name.
#[derive(Drop)]
pub(crate) struct PortTable<'a> {
    model: &'a CellModel,
    /// The names of its outputs, then those of its inputs that no output has, each once.
    names: LentNames<'a>,
    /// How many of them are names of outputs.
    outs: u32,
}

impl<'a> Model for PortTable<'a> {
    ghost use Rattle.blif_pins.specs.Ports.{Ports, Fits};

    ghost Value = { Ports };

    ghost view = { λ t. record { model = t.model.now; names = t.names; outs = t.outs } };

    ghost invariant = { λ t.
        Fits (record { model = t.model.now; names = t.names; outs = t.outs }) };
}

/// A port of a model.
#[derive(Clone, Copy, Debug)]
pub(crate) struct Port {
    /// Its number among the names of the model's ports.
    pub(crate) number: u32,
    pub(crate) is_output: bool,
}

impl<'a> PortTable<'a> {
    /// The ports of a model.
    pub(crate) fn new(alloc: Global, model: &'a CellModel) -> Result<PortTable<'a>, AllocError>
        ensures { IfOk result (λ t. t.model ≡ model.now) }
    {
        let mut names = LentNames::new(alloc);
        add_names(&mut names, model.outs.as_slice())?;
        let outs = names.count();
        add_names(&mut names, model.ins.as_slice())?;
        names.law();
        Ok(PortTable { model, names, outs })
    }

    /// Tells a caller's proof what holds of the names. It does nothing.
    pub(crate) fn law(&self)
        ensures { Fits self.now }
    {
        let _ = &self.names;
    }

    /// The port of this name.
    pub(crate) fn find(&self, name: &[u8]) -> Option<Port>
        ensures { MatchOption result (IsPort self.now.model name.now → ⊥)
            (λ port. IsPortAt self.now name.now port.number port.is_output) }
    {
        let number = self.names.find(name)?;
        Some(Port {
            number,
            is_output: number < self.outs,
        })
    }
}

/// Adds the names that aren't there yet.
fn add_names<'a>(names: &mut LentNames<'a>, more: &'a [Text]) -> Result<(), AllocError>
    ensures { OnOk result (AddsNames names.old more.now names.new) }
{
    for name in more {
        add_name(names, name.as_bytes())?;
    }
    Ok(())
}

/// Adds a name unless it is there. More than 2^32 names are told as want of memory.
fn add_name<'a>(names: &mut LentNames<'a>, name: &'a [u8]) -> Result<(), AllocError>
    ensures { OnOk result (AddsName names.old name.now names.new) }
{
    if names.find(name).is_some() {
        return Ok(());
    }
    if names.count() == u32::MAX {
        return Err(AllocError);
    }
    names.add(name)
}
