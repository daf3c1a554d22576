ghost use Rattle.std.specs.Prelude.{◌≡◌, ◌<◌, ◌^◌, IfOk, length};
ghost use Rattle.refute_check.specs.Rooms.{marks_of};

use pb_expand::PbGraph;
use sparse_set::SparseSet;
use std::alloc::{AllocError, Global};
use task_types::Task;

/// Sets of what stands in a node, and of what is reached from there.
#[derive(Drop)]
pub(crate) struct Marks {
    pub atoms: SparseSet,
    pub leaves: SparseSet,
    pub nets: SparseSet,
    pub pins: SparseSet,
    pub reached: SparseSet,
}

/// Empty sets with room for what the graph and the task have.
pub(crate) fn marks_for(alloc: Global, graph: &PbGraph, task: &Task) -> Result<Marks, AllocError>
    requires atoms { length task.now.atoms < 2 ^ 32 }
    requires nets { length task.now.nets < 2 ^ 32 }
    ensures { IfOk result (λ marks. marks ≡ marks_of graph.now task.now) }
{
    Ok(Marks {
        atoms: SparseSet::with_room(alloc, task.atoms.len() as u32)?,
        leaves: SparseSet::with_room(alloc, graph.pbs())?,
        nets: SparseSet::with_room(alloc, task.nets.len() as u32)?,
        pins: SparseSet::with_room(alloc, graph.pins())?,
        reached: SparseSet::with_room(alloc, graph.pins())?,
    })
}
