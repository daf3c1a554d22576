ghost use Rattle.std.specs.Prelude.{◌≡◌, ◌≤◌, IfOk, length};

use crate::Real;
use sqlite_items::Items;
use std::alloc::{AllocError, Global};
use vtr_base::Text;

/// Atoms of a netlist that one block of the device is to hold, and how it holds them.
#[derive(Drop)]
pub struct Cluster {
    pub name: Text,
    /// The number of the block type in its architecture.
    pub block: u32,
    /// The atoms, by their numbers in the netlist.
    pub atoms: Items<u32>,
    pub real: Real,
    ghost few: { length atoms ≤ 4096 },
}

impl Cluster {
    /// The same once more.
    pub fn copy(&self, alloc: Global) -> Result<Cluster, AllocError>
        ensures { IfOk result (λ c. c ≡ self.now) }
    {
        Ok(Cluster {
            name: self.name.copy(alloc)?,
            block: self.block,
            atoms: Items::from_slice(alloc, self.atoms.as_slice())?,
            real: self.real.copy(alloc)?,
        })
    }
}
