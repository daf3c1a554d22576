ghost use Rattle.std.specs.Prelude.{IfOk};
ghost use Rattle.anneal_placer.specs.Board.{HaveSamePairs};

use indexmap::IndexSet;
use std::alloc::{AllocError, Global};

/// The pairs of kinds that go together, to be looked up.
#[derive(Drop)]
pub(crate) struct Pairing {
    pub(crate) pairs: IndexSet<(u32, u32)>,
}

impl Pairing {
    pub(crate) fn of(alloc: Global, fits: &[(u32, u32)]) -> Result<Pairing, AllocError>
        ensures { IfOk result (λ pairing. HaveSamePairs fits.now pairing.pairs.keys) }
    {
        let mut pairs = IndexSet::new(alloc);
        for pair in fits {
            pairs.insert(*pair)?;
        }
        Ok(Pairing { pairs })
    }
}
