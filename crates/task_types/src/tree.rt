ghost use Rattle.std.specs.Prelude.{◌≡◌};

use pb_expand::{PbIx, PinIx};
use sqlite_items::Items;
use std::marker::Model;

/// What is decided on the way down a tree.
#[derive(Clone, Copy, Debug, PartialEq, Eq)]
pub enum Var {
    /// The mode of an instance that isn't a leaf.
    Mode(PbIx),
    /// What a leaf is used for.
    Occupant(PbIx),
    /// The edge that a pin takes in a mode.
    Edge(PinIx, u32),
    /// The net that comes in at an input or clock pin of the block.
    Entry(PinIx),
}

/// A node of a tree. Atoms, needs and nets go by their places in the task.
#[derive(Debug, Drop)]
pub enum TreeNode {
    /// It has so many children, one for each option that the variable has left, in their order.
    Branch {
        var: Var,
        kids: u32,
    },
    /// Atoms for which fewer leaves are left than they are.
    Homeless(Items<u32>),
    /// A need, and pins that hold all its ends and no way out to a source.
    Cut {
        need: u32,
        pins: Items<PinIx>,
    },
    /// Needs of different nets that can't but pass these pins, which are fewer than they.
    Crowd {
        needs: Items<u32>,
        pins: Items<PinIx>,
    },
    /// Nothing is shown here.
    Loose,
}

/// A tree that is to show that nothing realises a task: its nodes in preorder, which are those of
/// one whole tree, in which each branch has a child.
#[derive(Debug, Drop)]
pub struct Tree {
    nodes: Items<TreeNode>,
}

impl Model for Tree {
    ghost use Rattle.std.specs.Prelude.{List};
    ghost use Rattle.task_types.specs.declared.tree.TreeNode.{TreeNode};
    ghost use Rattle.task_types.specs.Trees.{IsWholeTree};

    ghost Value = { List TreeNode };

    ghost view = { λ t. t.nodes };

    ghost invariant = { λ t. IsWholeTree t.nodes };
}

impl Tree {
    ghost use Rattle.task_types.specs.Trees.{IsWholeTree};

    /// The tree of these nodes.
    pub fn from_nodes(nodes: Items<TreeNode>) -> Tree
        requires { IsWholeTree nodes }
        ensures { result ≡ nodes }
    {
        Tree { nodes }
    }

    /// The nodes in preorder.
    pub fn nodes(&self) -> &[TreeNode]
        ensures { result.now ≡ self.now }
    {
        self.nodes.as_slice()
    }

    /// A law of trees, for callers' proofs: they are whole. It does nothing.
    pub fn law(&self)
        ensures { IsWholeTree self.now }
    {
        let _ = &self.nodes;
    }
}
