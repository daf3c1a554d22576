ghost use Rattle.std.specs.Prelude.{IfOk, IfErr};
ghost use Rattle.task_rules.specs.Valid.{IsTaskOf};
ghost use Rattle.task_make.specs.Lists.{Refuses};

use crate::list::listed;
use atom_lists::TaskError;
use net_types::Netlist;
use pb_expand::PbGraph;
use sqlite_items::Items;
use std::alloc::Global;
use task_homes::homes_of;
use task_needs::task_needs;
use task_nets::{joined_nets, task_nets};
use task_types::{Entries, Task};

/// The task of a list of atoms on a block type: each atom may be at every leaf that can hold it,
/// and the nets come in and leave wherever they can. More than 4,096 atoms are refused first, and then
/// the first entry of the list that is no atom of the netlist, or that an earlier one is, too.
///
/// It takes n log n steps in the connections of the atoms, and looks at each instance of the block
/// type once for each atom.
pub fn task_of(
    alloc: Global,
    net: &Netlist,
    graph: &PbGraph,
    atoms: &[u32],
) -> Result<Task, TaskError>
    ensures task { IfOk result (IsTaskOf graph.now net.now.atoms atoms.now) }
    ensures refused { IfErr result (Refuses net.now.atoms atoms.now) }
{
    let listed = listed(alloc, net.atoms(), atoms)?;
    let numbers = joined_nets(alloc, net, &listed)?;
    numbers.law();
    let nets = task_nets(alloc, net, &listed, &numbers)?;
    let needs = task_needs(alloc, net, atoms, &numbers, nets.as_slice())?;
    let homes = homes_of(alloc, net, graph, atoms)?;
    Ok(Task {
        block: graph.block(),
        atoms: Items::from_slice(alloc, atoms)?,
        nets,
        homes,
        needs,
        entries: Entries::Free,
    })
}
