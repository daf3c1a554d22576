ghost use Rattle.std.specs.Prelude.{◌≡◌, ◌≤◌, ℕ, List, length, IfOk, IfErr};
ghost use Rattle.atom_lists.specs.Lists.{SpellsAtoms};
ghost use Rattle.task_make.specs.Lists.{AreAtoms};
ghost use Rattle.task_rules.specs.Valid.{IsTaskOf};
ghost use Rattle.run_tasks.specs.Tasks.{IsTaskFrom, IsRefusedList};

use atom_lists::{laws_of_lists, read_atoms};
use net_types::Netlist;
use pb_expand::PbGraph;
use run_base::{Stop, refused_by};
use std::alloc::Global;
use task_make::task_of;
use task_types::Task;

/// The task of the atoms that the bytes of their file list.
pub(crate) fn task_listed(
    alloc: Global,
    file: &str,
    bytes: &[u8],
    net: &Netlist,
    graph: &PbGraph,
) -> Result<Task, Stop>
    ensures task { IfOk result (IsTaskFrom graph.now net.now.atoms bytes.now) }
    ensures stopped { IfErr result (IsRefusedList net.now.atoms file.now bytes.now) }
    ensures complete { (numbers : List ℕ) → SpellsAtoms net.now.atoms bytes.now numbers
        → IfErr result (λ s. s ≡ Stop.Memory) }
{
    laws_of_lists(net);
    match read_atoms(alloc, bytes, net) {
        Ok(atoms) => task_of_atoms(alloc, file, atoms.as_slice(), net, graph),
        Err(error) => Err(refused_by(alloc, file, &error)),
    }
}

/// The task of different atoms of the netlist, of which there are few enough.
fn task_of_atoms(
    alloc: Global,
    file: &str,
    atoms: &[u32],
    net: &Netlist,
    graph: &PbGraph,
) -> Result<Task, Stop>
    requires atoms { AreAtoms net.now.atoms atoms.now }
    requires few { length atoms.now ≤ 4096 }
    ensures task { IfOk result (IsTaskOf graph.now net.now.atoms atoms.now) }
    ensures stopped { IfErr result (λ s. s ≡ Stop.Memory) }
{
    match task_of(alloc, net, graph, atoms) {
        Ok(task) => Ok(task),
        Err(error) => Err(refused_by(alloc, file, &error)),
    }
}
