ghost use Rattle.std.specs.Prelude.{◌≡◌, ◌<◌, ◌↔◌, ℕ, [], IsTrue, length};
ghost use Rattle.vtr_base.specs.Lists.{Has};
ghost use Rattle.sparse_set.specs.Sets.{held_on};
ghost use Rattle.list_laws.specs.Orders.{Once};
ghost use Rattle.task_types.specs.Open.{IsOpenTo};
ghost use Rattle.task_types.specs.Nodes.{IsHomeless};
ghost use Rattle.task_reach.specs.Gains.{Gains, FromFirst, FromItem};
ghost use Rattle.task_reach.specs.Valid.{IsTaskOf};

use pb_expand::PbGraph;
use sparse_set::SparseSet;
use task_reach::put_leaves;
use task_trail::Trail;
use task_types::Task;

/// Whether these are different atoms of the task, more than the leaves that are open to any of
/// them. It goes over the leaves that are listed for each of them, and leaves both sets empty.
pub fn is_homeless(
    graph: &PbGraph,
    task: &Task,
    trail: &Trail,
    atoms: &[u32],
    listed: &mut SparseSet,
    leaves: &mut SparseSet,
) -> bool
    requires task { IsTaskOf graph.now task.now }
    requires atoms { trail.now.atoms ≡ length task.now.atoms }
    requires instances { trail.now.instances ≡ length graph.now.instances }
    requires listed { listed.old ≡ held_on [] (length task.now.atoms) }
    requires leaves { leaves.old ≡ held_on [] (length graph.now.instances) }
    ensures homeless { IsTrue result ↔ IsHomeless graph.now task.now trail.now.made atoms.now }
    ensures listed { listed.new ≡ listed.old }
    ensures leaves { leaves.new ≡ leaves.old }
{
    let different = are_listed(task, atoms, listed);
    listed.clear();
    if !different {
        return false;
    }
    put_all_leaves(graph, task, trail, atoms, leaves);
    leaves.law();
    let fewer = leaves.as_slice().len() < atoms.len();
    leaves.clear();
    fewer
}

/// Whether these are different atoms of the task. They are in the set then.
fn are_listed(task: &Task, atoms: &[u32], listed: &mut SparseSet) -> bool
    requires { listed.old ≡ held_on [] (length task.now.atoms) }
    ensures exact { IsTrue result ↔ (((atom : ℕ) → Has atoms.now atom → atom < length
        task.now.atoms) × Once atoms.now) }
    ensures room { listed.new.room ≡ listed.old.room }
{
    for atom in atoms {
        if *atom as usize >= task.atoms.len() {
            return false;
        }
        if !listed.insert(*atom) {
            return false;
        }
    }
    listed.law();
    true
}

/// Adds the leaves that are open to any of some atoms.
fn put_all_leaves(
    graph: &PbGraph,
    task: &Task,
    trail: &Trail,
    atoms: &[u32],
    leaves: &mut SparseSet,
)
    requires task { IsTaskOf graph.now task.now }
    requires inside { (atom : ℕ) → Has atoms.now atom → atom < trail.now.atoms }
    requires instances { trail.now.instances ≡ length graph.now.instances }
    requires room { leaves.old.room ≡ length graph.now.instances }
    ensures gains { Gains leaves.old.items leaves.new.items (FromFirst (FromItem atoms.now
        (IsOpenTo graph.now task.now trail.now.made)) (length atoms.now)) }
    ensures room { leaves.new.room ≡ leaves.old.room }
{
    for atom in atoms {
        put_leaves(graph, task, trail, *atom, leaves);
    }
}
