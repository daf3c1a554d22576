ghost use Rattle.std.specs.Prelude.{◌≡◌, ◌≤◌, ℕ, List, length};
ghost use Rattle.task_types.specs.declared.task.Task.{Task};
ghost use Rattle.task_types.specs.declared.tree.TreeNode.{TreeNode};
ghost use Rattle.task_types.specs.Nets.{NetSaid};
ghost use Rattle.task_types.specs.Trees.{AreAccepted, visits_of, branches};
ghost use Rattle.task_room.specs.Room.{IsRoom};
ghost use Rattle.search_rules.specs.Left.{HasSomeModes};

use pb_expand::PbGraph;

/// The law of a task's room, for callers' proofs: nodes in preorder, each of which is accepted and
/// has its place in a tree, whole or begun, have no more branches than the room says, where each
/// instance that isn't a leaf has a mode. It does nothing.
pub fn room_law(graph: &PbGraph)
    requires { HasSomeModes graph.now }
    ensures { (n : NetSaid) (t : Task) (nodes : List TreeNode) (room : ℕ) → IsRoom graph.now t room
        → AreAccepted graph.now n t (visits_of graph.now t nodes)
        → length (visits_of graph.now t nodes) ≡ length nodes → branches nodes ≤ room }
{
    graph.law();
}
