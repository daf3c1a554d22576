ghost use Rattle.prog_text.specs.Plain.{HasPlainNames};
ghost use Rattle.tree_lines.specs.Nodes.{task_names};
ghost use Rattle.tree_text.specs.Text.{HasAtoms};
ghost use Rattle.tree_back.specs.Laws.{SpellsBack};

use name_laws::names_are_one;
use net_types::Netlist;
use pb_expand::PbGraph;
use task_types::Task;

/// A law of writing, for callers' proofs: the text that a whole tree is written as spells it, where
/// it names what is there. It does nothing.
pub fn written_spells(net: &Netlist, graph: &PbGraph, task: &Task)
    requires plain { HasPlainNames graph.now.root }
    requires atoms { HasAtoms net.now.atoms task.now }
    ensures { SpellsBack graph.now task.now (task_names net.now.atoms task.now) }
{
    net.law();
    graph.law();
    graph.lists_ends();
    names_are_one(graph);
    let _task = task;
}
