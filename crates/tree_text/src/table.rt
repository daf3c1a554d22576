ghost use Rattle.std.specs.Prelude.{◌≡◌, IfOk};
ghost use Rattle.list_laws.specs.Orders.{StandOnce};
ghost use Rattle.tree_lines.specs.Nodes.{task_names};
ghost use Rattle.tree_text.specs.Text.{HasAtoms};

use names::LentNames;
use net_types::Netlist;
use std::alloc::{AllocError, Global};
use task_types::Task;

/// The names of the task's atoms, by their places in the task.
pub fn task_atoms<'a>(
    alloc: Global,
    net: &'a Netlist,
    task: &Task,
) -> Result<LentNames<'a>, AllocError>
    requires { HasAtoms net.now.atoms task.now }
    ensures { IfOk result (λ names. names ≡ task_names net.now.atoms task.now) }
{
    net.law();
    let mut names = LentNames::new(alloc);
    for number in task.atoms.as_slice() {
        let atom = &net.atoms()[*number as usize];
        names.add(atom.name.as_bytes())?;
    }
    Ok(names)
}
