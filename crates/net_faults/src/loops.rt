ghost use Rattle.std.specs.Prelude.{◌≡◌, ◌<◌, ◌-◌, ◌^◌, ℕ, IfOk, MatchOption, length};
ghost use Rattle.vtr_base.specs.Lists.{Has};
ghost use Rattle.net_types.specs.Ends.{HasOneMaker};
ghost use Rattle.net_types.specs.WellFormed.{HaveNets, HaveRanks, count_conns};
ghost use Rattle.net_faults.specs.Loops.{IsLeastLoop, names_at};
ghost use Rattle.net_faults.specs.Steps.{AreMakers};

use crate::feeds::feeds_of;
use least_cycle::{Cycles, least_cycle};
use net_types::Atom;
use sqlite_items::Items;
use std::alloc::{AllocError, Global};
use vtr_base::Text;

/// The names of the atoms on the least cycle through LUTs, if there is any cycle. The makers are
/// those of the nets, each of which one atom makes. It takes time linear in the number of atoms and
/// connections.
pub fn least_loop(
    alloc: Global,
    atoms: &[Atom],
    makers: &[Option<u32>],
) -> Result<Option<Items<Text>>, AllocError>
    requires makers { AreMakers atoms.now (length makers.now) makers.now }
    requires within { HaveNets (length makers.now) atoms.now }
    requires few { length atoms.now < 2 ^ 32 }
    requires few_conns { count_conns atoms.now < 2 ^ 32 - 1 }
    requires made { (net : ℕ) → net < length makers.now → HasOneMaker atoms.now net }
    ensures { IfOk result (λ found.
        MatchOption found (HaveRanks atoms.now) (IsLeastLoop atoms.now)) }
{
    let edges = feeds_of(alloc, atoms, makers)?;
    match least_cycle(alloc, atoms.len() as u32, edges.as_slice())? {
        Cycles::Ranked(_) => Ok(None),
        Cycles::Cycle(cycle) => Ok(Some(atom_names(alloc, atoms, cycle.as_slice())?)),
    }
}

/// The names of the atoms with these numbers.
fn atom_names(alloc: Global, atoms: &[Atom], numbers: &[u32]) -> Result<Items<Text>, AllocError>
    requires { (k : ℕ) → Has numbers.now k → k < length atoms.now }
    ensures { IfOk result (λ names. names ≡ names_at atoms.now numbers.now) }
{
    let mut names = Vec::with_capacity(alloc, numbers.len())?;
    for number in numbers {
        names.push(atoms[*number as usize].name.copy(alloc)?)?;
    }
    Ok(Items::from_vec(names))
}
