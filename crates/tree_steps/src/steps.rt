ghost use Rattle.std.specs.Prelude.{◌≡◌, ◌<◌, ◌^◌, ◌++◌, ◌∷◌, [], ℕ, List, length};
ghost use Rattle.task_types.specs.declared.decision.Decision.{Decision as DecisionSaid};
ghost use Rattle.task_types.specs.Tasks.{HasHomesInOrder};
ghost use Rattle.task_types.specs.Trees.{under, children};
ghost use Rattle.task_types.specs.Nodes.{IsBranch};
ghost use Rattle.task_types.specs.Options.{options};
ghost use Rattle.task_trail.specs.Decided.{decided_on};
ghost use Rattle.tree_steps.specs.Owing.{Owes, StandsAt, IsEntered, Advances, IsPath};

use pb_expand::PbGraph;
use task_options::{first_option, next_option};
use task_trail::Trail;
use task_types::{Task, TreeNode, Var};

/// Goes on from a node of a tree to the one behind it in preorder: from a branch to its first
/// option, and from any other node to the next option of the nearest branch above that has one
/// left. Over a whole tree each option is decided once and taken back once.
pub fn go_on(graph: &PbGraph, task: &Task, trail: &mut Trail, node: &TreeNode)
    requires atoms { trail.old.atoms ≡ length task.now.atoms }
    requires instances { trail.old.instances ≡ length graph.now.instances }
    requires pins { trail.old.pins ≡ length graph.now.pins }
    requires few_atoms { length task.now.atoms < 2 ^ 32 }
    requires few_nets { length task.now.nets < 2 ^ 32 }
    requires homes { HasHomesInOrder task.now }
    requires path { IsPath graph.now task.now trail.old.made }
    requires entered { IsEntered graph.now task.now trail.old.made node.now }
    ensures sizes { trail.new ≡ decided_on trail.new.made trail.old.instances trail.old.pins
        trail.old.atoms }
    ensures stands { (todo : List (List DecisionSaid)) → Owes graph.now task.now trail.old.made todo
        → StandsAt graph.now task.now trail.new.made
        (under graph.now task.now trail.old.made node.now ++ todo) }
{
    match node {
        TreeNode::Branch { var, .. } => descend(graph, task, trail, *var),
        TreeNode::Homeless(_) => advance(graph, task, trail),
        TreeNode::Cut { .. } => advance(graph, task, trail),
        TreeNode::Crowd { .. } => advance(graph, task, trail),
        TreeNode::Loose => advance(graph, task, trail),
    }
}

/// Decides the first option of a variable.
fn descend(graph: &PbGraph, task: &Task, trail: &mut Trail, var: Var)
    requires atoms { trail.old.atoms ≡ length task.now.atoms }
    requires instances { trail.old.instances ≡ length graph.now.instances }
    requires pins { trail.old.pins ≡ length graph.now.pins }
    requires path { IsPath graph.now task.now trail.old.made }
    requires branch { (kids : ℕ) × IsBranch graph.now task.now trail.old.made var kids }
    ensures sizes { trail.new ≡ decided_on trail.new.made trail.old.instances trail.old.pins
        trail.old.atoms }
    ensures first { (first : DecisionSaid) (rest : List DecisionSaid)
        → options graph.now task.now trail.old.made var ≡ first ∷ rest
        → trail.new.made ≡ first ∷ trail.old.made }
{
    let _ = task;
    graph.law();
    graph.one_owner();
    if let Some(first) = first_option(graph, var) {
        trail.decide(first);
    }
}

/// Takes decisions back up to one whose variable has an option left, and decides that; takes all
/// back where there is none.
fn advance(graph: &PbGraph, task: &Task, trail: &mut Trail)
    requires atoms { trail.old.atoms ≡ length task.now.atoms }
    requires instances { trail.old.instances ≡ length graph.now.instances }
    requires pins { trail.old.pins ≡ length graph.now.pins }
    requires few_atoms { length task.now.atoms < 2 ^ 32 }
    requires few_nets { length task.now.nets < 2 ^ 32 }
    requires homes { HasHomesInOrder task.now }
    requires path { IsPath graph.now task.now trail.old.made }
    ensures sizes { trail.new ≡ decided_on trail.new.made trail.old.instances trail.old.pins
        trail.old.atoms }
    ensures advances { Advances graph.now task.now trail.old.made trail.new.made }
{
    graph.law();
    graph.one_owner();
    while let Some(last) = trail.take_back() {
        if let Some(next) = next_option(graph, task, trail, last) {
            trail.decide(next);
            return;
        }
    }
}

/// Takes all decisions back.
pub fn rewind(trail: &mut Trail)
    ensures { trail.new ≡ decided_on [] trail.old.instances trail.old.pins trail.old.atoms }
{
    while trail.take_back().is_some() {}
}
