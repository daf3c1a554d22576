ghost use Rattle.std.specs.Prelude.{◌≡◌, IfOk};

use crate::Entry;
use pb_expand::PbIx;
use prog_map::Prog;
use sqlite_items::Items;
use std::alloc::{AllocError, Global};

/// What realises a task: a programming of the block type, for each atom its leaf, and which nets
/// come in where, in ascending order of the pins.
#[derive(Drop)]
pub struct Real {
    pub prog: Prog,
    pub homes: Items<PbIx>,
    pub entries: Items<Entry>,
}

impl Real {
    /// The same once more.
    pub fn copy(&self, alloc: Global) -> Result<Real, AllocError>
        ensures { IfOk result (λ r. r ≡ self.now) }
    {
        Ok(Real {
            prog: self.prog.copy()?,
            homes: Items::from_slice(alloc, self.homes.as_slice())?,
            entries: Items::from_slice(alloc, self.entries.as_slice())?,
        })
    }
}
