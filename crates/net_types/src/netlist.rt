ghost use Rattle.std.specs.Prelude.{◌≡◌, ◌<◌, Some, length, slice_get};
ghost use Rattle.net_types.specs.Ends.{AreSinks, IsDriver};
ghost use Rattle.net_types.specs.Inside.{HasDrivers, HasSinks};
ghost use Rattle.net_types.specs.WellFormed.{IsNetlist};
ghost use Rattle.net_types.specs.declared.atom.Atom.{Atom as AtomSaid};

use crate::{Atom, NetlistParts};
use flat_tables::FlatTable;
use names::Names;
use sqlite_items::Items;
use std::marker::Model;
use vtr_base::Bits;

/// A netlist: the names of its nets and its atoms, with the connections of each net. It keeps all
/// rules of BLIF files, which `law` hands to whoever holds one. Each accessor takes constant time
/// and no memory.
#[derive(Drop)]
pub struct Netlist {
    nets: Names,
    atoms: Items<Atom>,
    /// The atom that makes each net.
    drivers: Vec<u32>,
    /// The inputs that take each net.
    sinks: FlatTable<(u32, u32)>,
}

impl Model for Netlist {
    ghost use Rattle.net_types.specs.declared.parts.NetlistParts.{NetlistParts};

    ghost Value = { NetlistParts };

    ghost use Rattle.net_types.specs.Inside.{parts_of, IsHeld};

    ghost view = { parts_of };

    ghost invariant = { IsHeld };
}

impl Netlist {
    /// The netlist of these parts and tables.
    pub(crate) fn of(
        nets: Names,
        atoms: Items<Atom>,
        drivers: Vec<u32>,
        sinks: FlatTable<(u32, u32)>,
    ) -> Netlist
        requires kept { IsNetlist (record { nets = nets; atoms = atoms }) }
        requires drivers { HasDrivers atoms (length nets) drivers.items }
        requires sinks { HasSinks atoms (length nets) sinks }
        ensures { result ≡ record { nets = nets; atoms = atoms } }
    {
        Netlist {
            nets,
            atoms,
            drivers,
            sinks,
        }
    }

    /// A law of netlists, for callers' proofs: what every one keeps. It does nothing.
    pub fn law(&self)
        ensures { IsNetlist self.now }
    {
        let _ = self.drivers.len();
    }

    /// The names of the nets, by number.
    pub fn nets(&self) -> &Names
        ensures { result.now ≡ self.now.nets }
    {
        &self.nets
    }

    /// The atoms, by number.
    pub fn atoms(&self) -> &[Atom]
        ensures { result.now ≡ self.now.atoms }
    {
        self.atoms.as_slice()
    }

    /// The name of a net.
    pub fn name(&self, net: u32) -> &str
        requires { net < length self.now.nets }
        ensures { slice_get self.now.nets net ≡ Some result.now }
    {
        self.nets.text(net)
    }

    /// The table of a LUT, bit by bit; no bits for another atom.
    pub fn table_of(&self, atom: u32) -> &Bits
        requires { atom < length self.now.atoms }
        ensures { (found : AtomSaid) → slice_get self.now.atoms atom ≡ Some found
            → result.now ≡ found.table }
    {
        &self.atoms.as_slice()[atom as usize].table
    }

    /// The atom that makes a net.
    pub fn driver(&self, net: u32) -> u32
        requires { net < length self.now.nets }
        ensures { IsDriver self.now.atoms net result }
    {
        self.drivers[net as usize]
    }

    /// The inputs that take a net, each by its atom and its place among the inputs of that,
    /// ascending.
    pub fn sinks(&self, net: u32) -> &[(u32, u32)]
        requires { net < length self.now.nets }
        ensures { AreSinks self.now.atoms net result.now }
    {
        self.sinks.group(net)
    }
}
