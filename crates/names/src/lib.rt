//! Names by number.
#![tactic(auto)]

mod lent;

ghost use Rattle.std.specs.Prelude.{◌≡◌, ◌<◌, ◌-◌, ◌^◌, ℕ, Some, [], length, slice_get, IfOk, OnOk, OnErr, MatchOption};
ghost use Rattle.list_laws.specs.Orders.{Once};
ghost use Rattle.names.specs.Naming.{AddsName};

use indexmap::IndexSet;
pub use lent::LentNames;
use std::alloc::{AllocError, Global};
use std::marker::Model;

/// Names, numbered from 0 in the order in which they were first given. Contracts see the list of
/// the names. A look-up by name or by number takes the same time however many names there are.
#[derive(Drop)]
pub struct Names {
    names: IndexSet<String>,
}

impl Model for Names {
    ghost use Rattle.std.specs.Prelude.{◌<◌, ◌^◌, List, ℕ, length, map, string_bytes};

    ghost Value = { List (List ℕ) };

    ghost view = { λ n. map string_bytes n.names.keys };

    ghost invariant = { λ n. length n.names.keys < 2 ^ 32 };
}

impl Names {
    /// No names. It takes no memory.
    pub fn new(alloc: Global) -> Names
        ensures { result ≡ [] }
    {
        Names {
            names: IndexSet::new(alloc),
        }
    }

    /// Tells a caller's proof what holds of all names: none stands twice, and they have numbers of
    /// 32 bits. It does nothing.
    pub fn law(&self)
        ensures once { Once self.now }
        ensures few { length self.now < 2 ^ 32 }
    {
        let _ = self.names.len();
    }

    /// The number of a name: its own where it is known, and else the next one. Where memory runs
    /// out, the names are as before.
    pub fn number(&mut self, name: &str) -> Result<u32, AllocError>
        requires { length self.old < 2 ^ 32 - 1 }
        ensures number { IfOk result (λ n. slice_get self.new n ≡ Some name.now) }
        ensures names { OnOk result (AddsName self.old name.now self.new) }
        ensures err { OnErr result (self.new ≡ self.old) }
    {
        if let Some(known) = self.find(name) {
            return Ok(known);
        }
        let next = self.count();
        let name = String::from_str(*self.names.allocator(), name)?;
        self.names.insert(name)?;
        Ok(next)
    }

    /// The number of a name, if it is known.
    pub fn find(&self, name: &str) -> Option<u32>
        ensures { MatchOption result ((n : ℕ) → slice_get self.now n ≡ Some name.now → ⊥)
            (λ n. slice_get self.now n ≡ Some name.now) }
    {
        let place = self.names.get_index_of(name)?;
        Some(place as u32)
    }

    /// The name that has a number.
    pub fn text(&self, number: u32) -> &str
        requires { number < length self.now }
        ensures { slice_get self.now number ≡ Some result.now }
    {
        self.names.as_slice()[number as usize].as_str()
    }

    /// How many names there are.
    pub fn count(&self) -> u32
        ensures { result ≡ length self.now }
    {
        self.names.len() as u32
    }

    /// The same names with the same numbers.
    pub fn copy(&self, alloc: Global) -> Result<Names, AllocError>
        ensures { IfOk result (λ copy. copy ≡ self.now) }
    {
        let mut copy = Names::new(alloc);
        for name in self.names.as_slice() {
            copy.number(name.as_str())?;
        }
        Ok(copy)
    }
}
