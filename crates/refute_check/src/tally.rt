ghost use Rattle.std.specs.Prelude.{◌≡◌, ◌<◌, ◌+◌, ◌^◌};
ghost use Rattle.task_types.specs.Trees.{branches, loose_ends};

use task_types::TreeNode;
use tree_verdict::Verdict;

/// How many branches and loose nodes there were.
#[derive(Clone, Copy, Debug, PartialEq, Eq)]
pub(crate) struct Tally {
    pub branches: u64,
    pub loose: u64,
}

impl Tally {
    ghost use Rattle.std.specs.Prelude.{[], ◌∷◌};
    ghost use Rattle.tree_verdict.specs.declared.verdict.Verdict.TheVariants.{Refutes, Partial};

    /// One node more.
    pub fn and(self, node: &TreeNode) -> Tally
        requires branches { self.branches + 1 < 2 ^ 64 }
        requires loose { self.loose + 1 < 2 ^ 64 }
        ensures branches { result.branches ≡ self.branches + branches (node.now ∷ []) }
        ensures loose { result.loose ≡ self.loose + loose_ends (node.now ∷ []) }
    {
        match node {
            TreeNode::Branch { .. } => Tally {
                branches: self.branches + 1,
                loose: self.loose,
            },
            TreeNode::Loose => Tally {
                branches: self.branches,
                loose: self.loose + 1,
            },
            TreeNode::Homeless(_) => self,
            TreeNode::Cut { .. } => self,
            TreeNode::Crowd { .. } => self,
        }
    }

    /// The verdict where each node is accepted.
    pub fn verdict(self) -> Verdict
        ensures refutes { self.loose ≡ 0 → result ≡ Refutes }
        ensures partial { 0 < self.loose → result ≡ Partial self.branches self.loose }
    {
        if self.loose == 0 {
            return Verdict::Refutes;
        }
        Verdict::Partial {
            branches: self.branches,
            loose: self.loose,
        }
    }
}
