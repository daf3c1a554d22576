ghost use Rattle.std.specs.Prelude.{◌≡◌, ◌<◌, ◌-◌, ◌^◌, ◌++◌, ◌∷◌, ℕ, [], Some, length, slice_get, IfOk, OnErr, MatchBool, MatchOption};
ghost use Rattle.std.specs.List.{All};
ghost use Rattle.vtr_base.specs.Lists.{Has};
ghost use Rattle.list_laws.specs.Orders.{Once, Ordered, HaveSame};

use crate::ascending::sorted;
use indexmap::IndexSet;
use std::alloc::{AllocError, Global};
use std::marker::Model;

/// Different numbers, each by its place: the first has place 0. Contracts see the list of the
/// numbers. A look-up takes the same time however many there are.
#[derive(Drop)]
pub struct Numbers {
    numbers: IndexSet<u32>,
}

impl Model for Numbers {
    ghost use Rattle.std.specs.Prelude.{◌<◌, ◌^◌, List, ℕ, length};

    ghost Value = { List ℕ };

    ghost view = { λ n. n.numbers.keys };

    ghost invariant = { λ n. length n.numbers.keys < 2 ^ 32 };
}

impl Numbers {
    /// No numbers. It takes no memory.
    pub fn new(alloc: Global) -> Numbers
        ensures { result ≡ [] }
    {
        Numbers {
            numbers: IndexSet::new(alloc),
        }
    }

    /// The numbers of a list, each once, ascending. It takes the time of a sort.
    pub fn ascending(alloc: Global, list: &[u32]) -> Result<Numbers, AllocError>
        requires low { All (λ number. number < 2 ^ 32 - 1) list.now }
        ensures order { IfOk result (λ numbers. Ordered ◌<◌ numbers) }
        ensures same { IfOk result (λ numbers. HaveSame numbers list.now) }
    {
        let sorted = sorted(alloc, list)?;
        let mut numbers = Numbers::new(alloc);
        for number in &sorted {
            numbers.add(*number)?;
        }
        Ok(numbers)
    }

    /// A law of these numbers, for callers' proofs: none stands twice. It does nothing.
    pub fn law(&self)
        ensures once { Once self.now }
        ensures few { length self.now < 2 ^ 32 }
    {
        let _ = self.numbers.len();
    }

    /// Puts a number last, where it isn't there yet, and tells whether it wasn't. Where memory runs
    /// out, the numbers are as before.
    pub fn add(&mut self, number: u32) -> Result<bool, AllocError>
        requires few { length self.old < 2 ^ 32 - 1 }
        ensures ok { IfOk result (λ is_new. MatchBool is_new
            ((Has self.old number → ⊥) × (self.new ≡ self.old ++ number ∷ []))
            (Has self.old number × (self.new ≡ self.old))) }
        ensures err { OnErr result (self.new ≡ self.old) }
    {
        let is_new = self.numbers.insert(number)?;
        Ok(is_new)
    }

    /// The place of a number, if it is there.
    pub fn place_of(&self, number: u32) -> Option<u32>
        ensures { MatchOption result (Has self.now number → ⊥)
            (λ place. slice_get self.now place ≡ Some number) }
    {
        let place = self.numbers.get_index_of(&number)?;
        Some(place as u32)
    }

    /// The numbers, by their places.
    pub fn as_slice(&self) -> &[u32]
        ensures { result.now ≡ self.now }
    {
        self.numbers.as_slice()
    }
}
