ghost use Rattle.prog_text.specs.Plain.{HasPlainNames};
ghost use Rattle.tree_lines.specs.Nodes.{task_names};
ghost use Rattle.tree_text.specs.Laws.{SpellsOneTree, IsReadWhereSpelled, RefusesInOneWay};
ghost use Rattle.tree_text.specs.Text.{HasAtoms};

use net_types::Netlist;
use pb_expand::PbGraph;
use task_types::Task;
use tree_lines::one_node;

/// The laws of the text, so that what `read_tree` promises of its answers decides each answer: a
/// text spells at most one tree, one that spells a tree is refused by want of memory alone, and
/// else it is refused in one way. It does nothing.
pub fn laws_of_trees(net: &Netlist, graph: &PbGraph, task: &Task)
    requires plain { HasPlainNames graph.now.root }
    requires atoms { HasAtoms net.now.atoms task.now }
    ensures one { SpellsOneTree graph.now task.now (task_names net.now.atoms task.now) }
    ensures read { IsReadWhereSpelled graph.now task.now (task_names net.now.atoms task.now) }
    ensures refused { RefusesInOneWay graph.now task.now (task_names net.now.atoms task.now) }
{
    net.law();
    let _task = task;
    one_node(graph);
}
