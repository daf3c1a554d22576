ghost use Rattle.std.specs.Prelude.{◌≡◌, IfOk};
ghost use Rattle.net_types.specs.WellFormed.{IsNetlist};

use crate::ends::{drivers_of, sinks_of};
use crate::{Atom, Netlist};
use names::Names;
use sqlite_items::Items;
use std::alloc::{AllocError, Global};

/// The parts of a netlist, of which nothing is known yet.
#[derive(Drop)]
pub struct NetlistParts {
    /// The names of the nets, in the order in which the file mentions them first.
    pub nets: Names,
    /// Inputs first, then outputs, then the other atoms, each in the order of the file.
    pub atoms: Items<Atom>,
}

impl NetlistParts {
    /// The netlist of these parts. It takes time and memory linear in the number of connections.
    pub fn into_netlist(self, alloc: Global) -> Result<Netlist, AllocError>
        requires { IsNetlist self }
        ensures { IfOk result (λ netlist. netlist ≡ self) }
    {
        let drivers = drivers_of(alloc, self.atoms.as_slice(), self.nets.count())?;
        let sinks = sinks_of(alloc, self.atoms.as_slice(), self.nets.count())?;
        Ok(Netlist::of(self.nets, self.atoms, drivers, sinks))
    }
}
