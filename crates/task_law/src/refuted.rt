ghost use Rattle.std.specs.Prelude.{List};
ghost use Rattle.task_types.specs.declared.task.Task.{Task};
ghost use Rattle.task_types.specs.declared.tree.TreeNode.{TreeNode};
ghost use Rattle.task_types.specs.Nets.{NetSaid, HasOneNet};
ghost use Rattle.task_types.specs.Tasks.{HasNetsOnce};
ghost use Rattle.task_types.specs.Realises.{NothingRealises};
ghost use Rattle.task_types.specs.Trees.{Refutes};

use pb_expand::PbGraph;
use prog_map::{setting_laws, step_laws};

/// The law of refuting trees, for callers' proofs: where a tree refutes a task over the graph,
/// nothing realises the task. It does nothing.
pub fn refuting_law(graph: &PbGraph)
    ensures { (n : NetSaid) (t : Task) (nodes : List TreeNode) → HasOneNet n → HasNetsOnce t
        → Refutes graph.now n t nodes → NothingRealises graph.now n t }
{
    graph.law();
    graph.keeps();
    graph.lists_ends();
    setting_laws();
    step_laws(graph);
}
