ghost use Rattle.std.specs.Prelude.{◌≡◌, ◌<◌, ◌++◌, ◌↔◌, ℕ, length, IfOk, OnOk};
ghost use Rattle.vtr_base.specs.Lists.{Has};
ghost use Rattle.list_laws.specs.Orders.{Ordered};
ghost use Rattle.net_types.specs.Order.{nets_of};
ghost use Rattle.task_rules.specs.Joined.{IsJoined};

use net_types::{Conn, Netlist};
use number_places::Numbers;
use std::alloc::{AllocError, Global};

/// The nets of the connections of these atoms, each once, ascending. It takes the time of a sort of
/// the connections.
pub fn joined_nets(alloc: Global, net: &Netlist, atoms: &Numbers) -> Result<Numbers, AllocError>
    requires there { (number : ℕ) → Has atoms.now number → number < length net.now.atoms }
    ensures order { IfOk result (λ nets. Ordered ◌<◌ nets) }
    ensures each { IfOk result (λ nets. (k : ℕ) → Has nets k ↔ IsJoined net.now.atoms atoms.now k) }
    ensures low { IfOk result (λ nets. (k : ℕ) → Has nets k → k < length net.now.nets) }
{
    net.law();
    let nets = nets_of_all(alloc, net, atoms.as_slice())?;
    Ok(Numbers::ascending(alloc, nets.as_slice())?)
}

/// The nets of the connections of these atoms, one for each connection.
fn nets_of_all(alloc: Global, net: &Netlist, atoms: &[u32]) -> Result<Vec<u32>, AllocError>
    requires there { (number : ℕ) → Has atoms.now number → number < length net.now.atoms }
    ensures { IfOk result
        (λ nets. (k : ℕ) → Has nets.items k ↔ IsJoined net.now.atoms atoms.now k) }
{
    let mut nets = Vec::new(alloc);
    for number in atoms {
        let atom = &net.atoms()[*number as usize];
        push_nets(&mut nets, atom.ins.as_slice())?;
        push_nets(&mut nets, atom.outs.as_slice())?;
    }
    Ok(nets)
}

/// Adds the nets of connections.
fn push_nets(nets: &mut Vec<u32>, conns: &[Conn]) -> Result<(), AllocError>
    ensures { OnOk result (nets.new.items ≡ nets.old.items ++ nets_of conns.now) }
{
    for conn in conns {
        nets.push(conn.net)?;
    }
    Ok(())
}
