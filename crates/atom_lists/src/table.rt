ghost use Rattle.std.specs.Prelude.{◌≡◌, ◌≤◌, length, IfOk};
ghost use Rattle.list_laws.specs.Orders.{Once};
ghost use Rattle.atom_lists.specs.Lists.{names_of};

use names::LentNames;
use net_types::{Atom, Netlist};
use std::alloc::{AllocError, Global};

/// The names of a netlist's atoms, by number.
pub fn atoms_by_name(alloc: Global, net: &Netlist) -> Result<LentNames<'_>, AllocError>
    ensures { IfOk result (λ names. names ≡ names_of net.now.atoms) }
{
    net.law();
    names_of(alloc, net.atoms())
}

/// The names of these atoms.
fn names_of<'a>(alloc: Global, atoms: &'a [Atom]) -> Result<LentNames<'a>, AllocError>
    requires few { length atoms.now ≤ 65536 }
    requires once { Once (names_of atoms.now) }
    ensures { IfOk result (λ names. names ≡ names_of atoms.now) }
{
    let mut names = LentNames::new(alloc);
    for atom in atoms {
        names.add(atom.name.as_bytes())?;
    }
    Ok(names)
}
