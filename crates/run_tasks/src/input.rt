ghost use Rattle.std.specs.Prelude.{◌≡◌, ◌≤◌, Some, IsSome, slice_get, IfOk, IfErr};
ghost use Rattle.run_base.specs.Worlds.{world};
ghost use Rattle.run_tasks.specs.Tasks.{ReadsTask, StopsAtTask};
ghost use Rattle.run_tasks.specs.Valid.{IsValidInput};
ghost use Rattle.run_tasks.specs.Words.{words_said};

use crate::TaskWords;
use crate::list::task_listed;
use pb_expand::PbGraph;
use run_base::{Stop, fetch};
use run_inputs::block_named;
use run_laws::fetch_laws;
use run_netlists::{Mapped, read_mapped};
use std::alloc::Global;
use task_types::Task;
use vtr_base::Shelf;

/// A task with what it is of: an architecture, a netlist, and the number of a block type.
#[derive(Drop)]
pub struct TaskInput {
    pub mapped: Mapped,
    pub block: usize,
    pub task: Task,
}

impl TaskInput {
    /// The graph of the block type.
    pub fn graph(&self) -> &PbGraph
        requires { IsSome (slice_get self.now.mapped.expanded.graphs.items self.now.block) }
        ensures { slice_get self.now.mapped.expanded.graphs.items self.now.block
            ≡ Some result.now }
    {
        &self.mapped.expanded.graphs[self.block]
    }
}

/// The task of a list of atoms on a block type: the architecture is fetched and read, and its block
/// types are expanded; the netlist is fetched and read; the list is fetched, the block type is
/// looked up, and the list is read.
pub fn read_task<S: Shelf>(
    alloc: Global,
    words: &TaskWords<'_>,
    shelf: &mut S,
) -> Result<TaskInput, Stop>
    ensures held { S.files shelf.new ≡ S.files shelf.old }
    ensures count { S.faults shelf.old ≤ S.faults shelf.new }
    ensures reads { let w = world (S.files shelf.old) (S.faults shelf.old) (S.faults shelf.new) in
        IfOk result (ReadsTask w (words_said words.now)) }
    ensures stopped { let w = world (S.files shelf.old) (S.faults shelf.old) (S.faults shelf.new) in
        IfErr result (StopsAtTask w (words_said words.now)) }
    ensures complete { let w = world (S.files shelf.old) (S.faults shelf.old) (S.faults shelf.new)
        in IsValidInput w (words_said words.now) → IfErr result (λ s. s ≡ Stop.Memory) }
{
    fetch_laws();
    let mapped = read_mapped(alloc, words.arch, words.blif, shelf)?;
    let bytes = fetch(alloc, words.atoms, shelf)?;
    let block = block_named(alloc, words.arch, &mapped.expanded, words.block)?;
    let graph = &mapped.expanded.graphs[block];
    let task = task_listed(alloc, words.atoms, bytes.as_slice(), &mapped.netlist, graph)?;
    Ok(TaskInput {
        mapped,
        block,
        task,
    })
}
