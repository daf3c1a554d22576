ghost use Rattle.std.specs.Prelude.{◌≡◌, List};
ghost use Rattle.pb_expand.specs.Graph.{Graph};
ghost use Rattle.task_types.specs.declared.task.Task.{Task};
ghost use Rattle.task_types.specs.declared.tree.TreeNode.{TreeNode};
ghost use Rattle.task_types.specs.Nets.{NetSaid};
ghost use Rattle.tree_verdict.specs.Verdicts.{IsVerdict};
ghost use Rattle.tree_verdict.specs.declared.verdict.Verdict.{Verdict as VerdictSaid};

/// What a tree shows of a task.
#[derive(Clone, Copy, Debug, PartialEq, Eq)]
pub enum Verdict {
    /// Nothing realises the task.
    Refutes,
    /// No node is wrong, but some are loose.
    Partial { branches: u64, loose: u64 },
    /// The first node that isn't accepted, by its place in preorder.
    Wrong { node: u32 },
}

/// A tree has one verdict, for callers' proofs. It does nothing.
pub fn one_verdict()
    ensures { (g : Graph) (n : NetSaid) (t : Task) (nodes : List TreeNode) (a b : VerdictSaid)
        → IsVerdict g n t nodes a → IsVerdict g n t nodes b → a ≡ b }
{}
