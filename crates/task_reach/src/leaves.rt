ghost use Rattle.std.specs.Prelude.{◌≡◌, ◌<◌, [], length, slice_index_or};
ghost use Rattle.task_types.specs.Open.{IsOpenTo};
ghost use Rattle.task_reach.specs.Gains.{Gains};
ghost use Rattle.task_reach.specs.Valid.{IsTaskOf};
ghost use Rattle.task_reach.specs.Reached.{IsOpenLeaf};

use pb_expand::{PbGraph, PbIx};
use sparse_set::SparseSet;
use task_open::is_open_to;
use task_trail::Trail;
use task_types::Task;

/// Adds the leaves that are open to an atom. It goes over the leaves that are listed for it.
pub fn put_leaves(graph: &PbGraph, task: &Task, trail: &Trail, place: u32, leaves: &mut SparseSet)
    requires task { IsTaskOf graph.now task.now }
    requires atom { place < trail.now.atoms }
    requires instances { trail.now.instances ≡ length graph.now.instances }
    requires room { leaves.old.room ≡ length graph.now.instances }
    ensures gains { Gains leaves.old.items leaves.new.items
        (IsOpenTo graph.now task.now trail.now.made place) }
    ensures room { leaves.new.room ≡ leaves.old.room }
{
    for leaf in homes_of(task, place) {
        put_leaf(graph, task, trail, place, *leaf, leaves);
    }
}

/// Adds a leaf, where it is open to an atom.
fn put_leaf(
    graph: &PbGraph,
    task: &Task,
    trail: &Trail,
    place: u32,
    leaf: PbIx,
    leaves: &mut SparseSet,
)
    requires task { IsTaskOf graph.now task.now }
    requires atom { place < trail.now.atoms }
    requires inside { leaf.0 < length graph.now.instances }
    requires instances { trail.now.instances ≡ length graph.now.instances }
    requires room { leaves.old.room ≡ length graph.now.instances }
    ensures gains { Gains leaves.old.items leaves.new.items
        (IsOpenLeaf graph.now task.now trail.now.made place leaf.0) }
    ensures room { leaves.new.room ≡ leaves.old.room }
{
    if is_open_to(graph, task, trail, place, leaf) {
        leaves.insert(leaf.0);
    }
}

/// The leaves that are listed for an atom.
pub(crate) fn homes_of(task: &Task, place: u32) -> &[PbIx]
    ensures { result.now ≡ slice_index_or task.now.homes place [] }
{
    match task.homes.get(place as usize) {
        None => &[],
        Some(leaves) => leaves.as_slice(),
    }
}
