ghost use Rattle.std.specs.Prelude.{◌≡◌, ◌<◌, ◌-◌, ◌^◌, ◌++◌, ◌∷◌, ℕ, Some, [], length, slice_get, OnOk, OnErr, MatchOption};
ghost use Rattle.vtr_base.specs.Lists.{Has, IsFirstPlace};
ghost use Rattle.list_laws.specs.Orders.{Once};

use indexmap::IndexSet;
use std::alloc::{AllocError, Global};
use std::marker::Model;

/// Different names that are kept elsewhere, numbered from 0 in the order in which they were added.
/// Contracts see the list of the names. A look-up by name takes the same time however many names
/// there are.
#[derive(Drop)]
pub struct LentNames<'a> {
    names: IndexSet<&'a [u8]>,
}

impl<'a> Model for LentNames<'a> {
    ghost use Rattle.std.specs.Prelude.{◌<◌, ◌^◌, List, ℕ, length, map};

    ghost Value = { List (List ℕ) };

    ghost view = { λ n. map (λ name. name.now) n.names.keys };

    ghost invariant = { λ n. length n.names.keys < 2 ^ 32 };
}

impl<'a> LentNames<'a> {
    /// No names. It takes no memory.
    pub fn new(alloc: Global) -> LentNames<'a>
        ensures { result ≡ [] }
    {
        LentNames {
            names: IndexSet::new(alloc),
        }
    }

    /// Tells a caller's proof what holds of all names: none stands twice, and they have numbers of
    /// 32 bits. It does nothing.
    pub fn law(&self)
        ensures once { Once self.now }
        ensures few { length self.now < 2 ^ 32 }
    {
        let _ = self.names.len();
    }

    /// Adds a name that isn't there yet. Where memory runs out, the names are as before.
    pub fn add(&mut self, name: &'a [u8]) -> Result<(), AllocError>
        requires few { length self.old < 2 ^ 32 - 1 }
        requires fresh { Has self.old name.now → ⊥ }
        ensures ok { OnOk result (self.new ≡ self.old ++ name.now ∷ []) }
        ensures err { OnErr result (self.new ≡ self.old) }
    {
        self.names.insert(name)?;
        Ok(())
    }

    /// The number of a name, if it is there.
    pub fn find(&self, name: &[u8]) -> Option<u32>
        ensures { MatchOption result ((n : ℕ) → slice_get self.now n ≡ Some name.now → ⊥)
            (IsFirstPlace self.now name.now) }
    {
        let place = self.names.get_index_of(name)?;
        Some(place as u32)
    }

    /// How many names there are.
    pub fn count(&self) -> u32
        ensures { result ≡ length self.now }
    {
        self.names.len() as u32
    }
}
