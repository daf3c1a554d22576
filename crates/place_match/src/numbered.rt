ghost use Rattle.std.specs.Prelude.{◌<◌, ◌^◌, IfOk, length};
ghost use Rattle.place_match.specs.Tables.{AreNumbers};

use indexmap::IndexSet;
use std::alloc::{AllocError, Global};

/// The kinds of a list, numbered in the order in which they are first met.
#[derive(Drop)]
pub(crate) struct Numbered {
    pub(crate) kinds: IndexSet<u32>,
    /// For each entry of the list the number of its kind.
    pub(crate) numbers: Vec<u32>,
}

impl Numbered {
    pub(crate) fn of(alloc: Global, list: &[u32]) -> Result<Numbered, AllocError>
        requires { length list.now < 2 ^ 32 }
        ensures { IfOk result (λ n. AreNumbers list.now (length list.now) n.kinds.keys
            n.numbers.items) }
    {
        let mut kinds = IndexSet::new(alloc);
        let mut numbers = Vec::with_capacity(alloc, list.len())?;
        for kind in list {
            let (number, _) = kinds.insert_full(*kind)?;
            numbers.push(number as u32)?;
        }
        Ok(Numbered { kinds, numbers })
    }
}
