ghost use Rattle.std.specs.Prelude.{◌≡◌, ℕ, IfOk, map};
ghost use Rattle.net_types.specs.Order.{group_of as kind_group, of_group};
ghost use Rattle.blif_order.specs.Orders.{IsLineOrder};
ghost use Rattle.blif_order.specs.Queues.{seen};

use crate::queues::{Queues, next_line};
use net_types::{Atom, AtomKind, Netlist};
use std::alloc::{AllocError, Global};

/// The atoms in an order in which their lines number the nets by first mention: inputs, outputs
/// and the others stand mixed, each in their order. It takes linear time.
pub fn line_order(alloc: Global, netlist: &Netlist) -> Result<Vec<&Atom>, AllocError>
    ensures { IfOk result (λ lines. IsLineOrder netlist.now (seen lines.items)) }
{
    netlist.law();
    let inputs = group(alloc, netlist.atoms(), 0)?;
    let outputs = group(alloc, netlist.atoms(), 1)?;
    let elements = group(alloc, netlist.atoms(), 2)?;
    let mut lines = Vec::new(alloc);
    let mut queues = Queues {
        inputs: inputs.as_slice(),
        outputs: outputs.as_slice(),
        elements: elements.as_slice(),
        known: 0,
    };
    while let Some((atom, rest)) = next_line(queues) {
        lines.push(atom)?;
        queues = rest;
    }
    Ok(lines)
}

/// The atoms of a group: inputs, outputs, or the others.
fn group(alloc: Global, atoms: &[Atom], group: u8) -> Result<Vec<&Atom>, AllocError>
    ensures { IfOk result (λ found. seen found.items ≡ of_group group atoms.now) }
{
    let mut found = Vec::new(alloc);
    for atom in atoms {
        if group_of(atom.kind) == group {
            found.push(atom)?;
        }
    }
    Ok(found)
}

/// The group of atoms of a kind.
fn group_of(kind: AtomKind) -> u8
    ensures { result ≡ kind_group kind }
{
    match kind {
        AtomKind::InPad => 0,
        AtomKind::OutPad => 1,
        _ => 2,
    }
}
