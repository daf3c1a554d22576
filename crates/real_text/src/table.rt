ghost use Rattle.std.specs.Prelude.{◌≡◌, IfOk};
ghost use Rattle.real_lines.specs.Nets.{HasNets, net_names};

use names::LentNames;
use net_types::Netlist;
use std::alloc::{AllocError, Global};
use task_types::Task;

/// The names of the task's nets, by their places in the task.
pub fn nets_by_name<'a>(
    alloc: Global,
    net: &'a Netlist,
    task: &Task,
) -> Result<LentNames<'a>, AllocError>
    requires { HasNets net.now.nets task.now }
    ensures { IfOk result (λ names. names ≡ net_names net.now.nets task.now) }
{
    net.law();
    let mut names = LentNames::new(alloc);
    for of in task.nets.as_slice() {
        names.add(net.name(of.net).as_bytes())?;
    }
    Ok(names)
}
