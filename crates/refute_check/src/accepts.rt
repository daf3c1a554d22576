ghost use Rattle.std.specs.Prelude.{◌≡◌, ◌↔◌, IsTrue, length};
ghost use Rattle.task_types.specs.Nodes.{IsAccepted, IsBranch};
ghost use Rattle.task_reach.specs.Valid.{IsTaskOf, EntersAtRoot};
ghost use Rattle.refute_check.specs.Rooms.{marks_of};

use crate::marks::Marks;
use net_types::Netlist;
use node_crowd::is_crowd;
use node_cut::is_cut;
use node_homeless::is_homeless;
use pb_expand::PbGraph;
use task_options::{is_live_var, is_undecided, option_count};
use task_trail::Trail;
use task_types::{Task, TreeNode, Var};

/// Whether a node is accepted, where so much was decided above it. It leaves the marks empty.
pub(crate) fn accepts(
    net: &Netlist,
    graph: &PbGraph,
    task: &Task,
    trail: &Trail,
    node: &TreeNode,
    marks: &mut Marks,
) -> bool
    requires task { IsTaskOf graph.now task.now }
    requires atoms { trail.now.atoms ≡ length task.now.atoms }
    requires instances { trail.now.instances ≡ length graph.now.instances }
    requires pins { trail.now.pins ≡ length graph.now.pins }
    requires root { EntersAtRoot graph.now trail.now.made }
    requires marks { marks.old ≡ marks_of graph.now task.now }
    ensures accepted { IsTrue result ↔ IsAccepted graph.now net.now.atoms task.now trail.now.made
        node.now }
    ensures marks { marks.new ≡ marks.old }
{
    match node {
        TreeNode::Branch { var, kids } => is_branch(graph, task, trail, *var, *kids),
        TreeNode::Homeless(atoms) => is_homeless(
            graph,
            task,
            trail,
            atoms.as_slice(),
            &mut marks.atoms,
            &mut marks.leaves,
        ),
        TreeNode::Cut { need, pins } => is_cut(
            net,
            graph,
            task,
            trail,
            *need,
            pins.as_slice(),
            &mut marks.pins,
        ),
        TreeNode::Crowd { needs, pins } => is_crowd(
            net,
            graph,
            task,
            trail,
            needs.as_slice(),
            pins.as_slice(),
            &mut marks.nets,
            &mut marks.pins,
            &mut marks.reached,
        ),
        TreeNode::Loose => true,
    }
}

/// Whether a variable is live and undecided, and has so many options left.
fn is_branch(graph: &PbGraph, task: &Task, trail: &Trail, var: Var, kids: u32) -> bool
    requires task { IsTaskOf graph.now task.now }
    requires atoms { trail.now.atoms ≡ length task.now.atoms }
    requires instances { trail.now.instances ≡ length graph.now.instances }
    requires pins { trail.now.pins ≡ length graph.now.pins }
    ensures { IsTrue result ↔ IsBranch graph.now task.now trail.now.made var kids }
{
    if !is_live_var(graph, task, trail, var) {
        return false;
    }
    if !is_undecided(graph, trail, var) {
        return false;
    }
    option_count(graph, task, trail, var) == kids as u64
}
