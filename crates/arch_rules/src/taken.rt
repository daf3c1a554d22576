ghost use Rattle.std.specs.Prelude.{◌≡◌, ◌↔◌, ◌⊎◌, ℕ, true, false, List, IfOk};
ghost use Rattle.arch_rules.specs.Taken.{HoldsName, IsMet, IsAdded};
ghost use Rattle.arch_rules.specs.declared.role.Sort.{Sort};

use crate::role::Sort;
use std::alloc::{AllocError, Global};
use std::collections::BTreeSet;

/// The names that were met among siblings, by their sort.
#[derive(Drop)]
pub struct Taken<'a> {
    pub units: BTreeSet<&'a str>,
    pub ports: BTreeSet<&'a str>,
    pub modes: BTreeSet<&'a str>,
}

impl<'a> Taken<'a> {
    pub fn new(alloc: Global) -> Taken<'a>
        ensures { (sort : Sort) (name : List ℕ) → IsMet result sort name → ⊥ }
    {
        Taken {
            units: BTreeSet::new(alloc),
            ports: BTreeSet::new(alloc),
            modes: BTreeSet::new(alloc),
        }
    }

    /// Adds a name, and answers whether it is new.
    pub fn add(&mut self, sort: Sort, name: &'a str) -> Result<bool, AllocError>
        ensures { IfOk result (λ fresh. IsAdded self.old self.new sort name.now fresh) }
    {
        match sort {
            Sort::Units => add_name(&mut self.units, name),
            Sort::Ports => add_name(&mut self.ports, name),
            Sort::Modes => add_name(&mut self.modes, name),
        }
    }
}

/// Adds a name to a set, and answers whether it is new.
fn add_name<'a>(seen: &mut BTreeSet<&'a str>, name: &'a str) -> Result<bool, AllocError>
    ensures fresh { IfOk result (λ fresh. fresh ≡ true → HoldsName seen.old name.now → ⊥) }
    ensures stale { IfOk result (λ fresh. fresh ≡ false → HoldsName seen.old name.now) }
    ensures met { IfOk result (λ fresh. (n : List ℕ) → HoldsName seen.new n ↔
        (HoldsName seen.old n ⊎ (n ≡ name.now))) }
{
    Ok(seen.insert(name)?)
}
