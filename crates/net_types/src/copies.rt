ghost use Rattle.std.specs.Prelude.{◌≡◌, IfOk};

use crate::{Atom, Conn, Netlist, NetlistParts};
use sqlite_items::Items;
use std::alloc::{AllocError, Global};
use vtr_base::Text;

impl Netlist {
    /// The same netlist once more.
    pub fn copy(&self, alloc: Global) -> Result<Netlist, AllocError>
        ensures { IfOk result (λ copy. copy ≡ self.now) }
    {
        self.law();
        let nets = self.nets().copy(alloc)?;
        let atoms = copy_atoms(alloc, self.atoms())?;
        Ok(NetlistParts { nets, atoms }.into_netlist(alloc)?)
    }
}

impl Conn {
    /// The same connection once more.
    pub fn copy(&self, alloc: Global) -> Result<Conn, AllocError>
        ensures { IfOk result (λ copy. copy ≡ self.now) }
    {
        Ok(Conn {
            port: self.port.copy(alloc)?,
            bit: self.bit,
            net: self.net,
        })
    }
}

impl Atom {
    /// The same atom once more.
    pub fn copy(&self, alloc: Global) -> Result<Atom, AllocError>
        ensures { IfOk result (λ copy. copy ≡ self.now) }
    {
        Ok(Atom {
            name: self.name.copy(alloc)?,
            kind: self.kind,
            ins: copy_conns(alloc, self.ins.as_slice())?,
            outs: copy_conns(alloc, self.outs.as_slice())?,
            table: self.table.clone()?,
            params: copy_params(alloc, self.params.as_slice())?,
        })
    }
}

fn copy_atoms(alloc: Global, atoms: &[Atom]) -> Result<Items<Atom>, AllocError>
    ensures { IfOk result (λ copies. copies ≡ atoms.now) }
{
    let mut copies = Vec::with_capacity(alloc, atoms.len())?;
    for atom in atoms {
        copies.push(atom.copy(alloc)?)?;
    }
    Ok(Items::from_vec(copies))
}

fn copy_conns(alloc: Global, conns: &[Conn]) -> Result<Items<Conn>, AllocError>
    ensures { IfOk result (λ copies. copies ≡ conns.now) }
{
    let mut copies = Vec::with_capacity(alloc, conns.len())?;
    for conn in conns {
        copies.push(conn.copy(alloc)?)?;
    }
    Ok(Items::from_vec(copies))
}

fn copy_params(alloc: Global, params: &[(Text, Text)]) -> Result<Items<(Text, Text)>, AllocError>
    ensures { IfOk result (λ copies. copies ≡ params.now) }
{
    let mut copies = Vec::with_capacity(alloc, params.len())?;
    for (name, value) in params {
        copies.push((name.copy(alloc)?, value.copy(alloc)?))?;
    }
    Ok(Items::from_vec(copies))
}
