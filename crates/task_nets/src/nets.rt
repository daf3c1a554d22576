ghost use Rattle.std.specs.Prelude.{◌≡◌, ◌<◌, ◌↔◌, ℕ, Any, IsTrue, IfOk, length};
ghost use Rattle.vtr_base.specs.Lists.{Has};
ghost use Rattle.task_types.specs.declared.task.TaskNet.{TaskNet as TaskNetSaid};
ghost use Rattle.task_rules.specs.Joined.{IsNetOf, numbers_of};

use net_types::Netlist;
use number_places::Numbers;
use sqlite_items::Items;
use std::alloc::{AllocError, Global};
use task_types::TaskNet;

/// What a task of these atoms says of each of some nets: where its maker is, and whether it is read
/// outside. Of each net at most one input outside is looked at.
pub fn task_nets(
    alloc: Global,
    net: &Netlist,
    atoms: &Numbers,
    nets: &Numbers,
) -> Result<Items<TaskNet>, AllocError>
    requires there { (number : ℕ) → Has nets.now number → number < length net.now.nets }
    ensures numbers { IfOk result (λ all. numbers_of all ≡ nets.now) }
    ensures each { IfOk result
        (λ all. (of : TaskNetSaid) → Has all of → IsNetOf net.now.atoms atoms.now of) }
{
    let numbers = nets.as_slice();
    let mut all = Vec::with_capacity(alloc, numbers.len())?;
    for number in numbers {
        all.push(task_net(net, atoms, *number))?;
    }
    Ok(Items::from_vec(all))
}

/// What a task of these atoms says of a net.
fn task_net(net: &Netlist, atoms: &Numbers, number: u32) -> TaskNet
    requires { number < length net.now.nets }
    ensures number { result.net ≡ number }
    ensures is { IsNetOf net.now.atoms atoms.now result }
{
    net.law();
    let maker = atoms.place_of(net.driver(number));
    let leaves = is_read_outside(net.sinks(number), atoms);
    TaskNet {
        net: number,
        maker,
        leaves,
    }
}

/// Whether one of these inputs is of an atom that isn't listed.
fn is_read_outside(sinks: &[(u32, u32)], atoms: &Numbers) -> bool
    ensures { IsTrue result ↔ Any (λ sink. Has atoms.now sink.0 → ⊥) sinks.now }
{
    sinks.iter().any(|sink| is_outside(sink.0, atoms))
}

/// Whether an atom isn't listed.
fn is_outside(number: u32, atoms: &Numbers) -> bool
    ensures { IsTrue result ↔ (Has atoms.now number → ⊥) }
{
    atoms.place_of(number).is_none()
}
