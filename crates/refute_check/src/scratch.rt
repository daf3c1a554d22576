ghost use Rattle.std.specs.Prelude.{◌≡◌, ◌<◌, ◌^◌, IfOk, length};
ghost use Rattle.refute_check.specs.Rooms.{room_of};

use crate::marks::{Marks, marks_for};
use pb_expand::PbGraph;
use std::alloc::{AllocError, Global};
use std::marker::Model;
use task_trail::Trail;
use task_types::Task;

/// What a check of trees keeps in mind, for graphs and tasks of one size: nothing between two
/// checks.
#[derive(Drop)]
pub struct Scratch {
    pub(crate) trail: Trail,
    pub(crate) marks: Marks,
}

impl Model for Scratch {
    ghost use Rattle.refute_check.specs.Rooms.{Room};

    ghost Value = { Room };

    ghost use Rattle.refute_check.specs.Tied.{room_in, IsAtRest};

    ghost view = { room_in };

    ghost invariant = { IsAtRest };
}

impl Scratch {
    /// The room that a check of trees over the graph and the task takes.
    pub fn for_task(alloc: Global, graph: &PbGraph, task: &Task) -> Result<Scratch, AllocError>
        requires atoms { length task.now.atoms < 2 ^ 32 }
        requires nets { length task.now.nets < 2 ^ 32 }
        ensures { IfOk result (λ scratch. scratch ≡ room_of graph.now task.now) }
    {
        Ok(Scratch {
            trail: Trail::for_task(alloc, graph, task)?,
            marks: marks_for(alloc, graph, task)?,
        })
    }
}
