ghost use Rattle.std.specs.Prelude.{◌≡◌, ◌<◌, ◌↔◌, ℕ, [], IfOk, IsTrue, MatchBool};
ghost use Rattle.vtr_base.specs.Lists.{Has};
ghost use Rattle.list_laws.specs.Orders.{Once};
ghost use Rattle.sparse_set.specs.Sets.{held_on, Joins, Stays};

use std::alloc::{AllocError, Global};
use std::marker::Model;

/// A set of numbers below its room, in the order in which they came: a sparse set, as Briggs and
/// Torczon describe it. Only `with_room` takes memory. To look up and to add takes constant time,
/// and to empty the set a step for each element.
#[derive(Drop)]
pub struct SparseSet {
    items: Vec<u32>,
    /// Which numbers are there.
    there: Vec<bool>,
}

impl Model for SparseSet {
    ghost use Rattle.sparse_set.specs.Sets.{Held};

    ghost Value = { Held };

    ghost use Rattle.sparse_set.specs.Tied.{held_of, IsTied};

    ghost view = { held_of };

    ghost invariant = { IsTied };
}

impl SparseSet {
    /// The empty set of numbers below `room`.
    pub fn with_room(alloc: Global, room: u32) -> Result<SparseSet, AllocError>
        ensures { IfOk result (λ set. set ≡ held_on [] room) }
    {
        Ok(SparseSet {
            items: Vec::with_capacity(alloc, room as usize)?,
            there: vec![in alloc; false; room as usize]?,
        })
    }

    /// The elements, the first that came first.
    pub fn as_slice(&self) -> &[u32]
        ensures { result.now ≡ self.now.items }
    {
        self.items.as_slice()
    }

    /// Whether a number is among them.
    pub fn contains(&self, number: u32) -> bool
        requires { number < self.now.room }
        ensures { IsTrue result ↔ Has self.now.items number }
    {
        self.there[number as usize]
    }

    /// Adds a number behind the others, where it isn't among them; whether it wasn't.
    pub fn insert(&mut self, number: u32) -> bool
        requires { number < self.old.room }
        ensures { MatchBool result (Joins self.old self.new number) (Stays self.old self.new number) }
    {
        if self.there[number as usize] {
            return false;
        }
        self.items.push_reserved(number);
        self.there[number as usize] = true;
        true
    }

    /// Takes all out.
    pub fn clear(&mut self)
        ensures { self.new ≡ held_on [] self.old.room }
    {
        while let Some(number) = self.items.pop() {
            self.there[number as usize] = false;
        }
    }

    /// What every set keeps, for callers' proofs: no number is there twice, and each is below the
    /// room. It does nothing.
    pub fn law(&self)
        ensures once { Once self.now.items }
        ensures inside { (number : ℕ) → Has self.now.items number → number < self.now.room }
    {
        let _ = self.items.len();
    }
}
