ghost use Rattle.prog_text.specs.Plain.{HasPlainNames};
ghost use Rattle.real_lines.specs.Nets.{HasNets, net_names};
ghost use Rattle.real_text.specs.Laws.{SpellsOneReal, IsReadWhereSpelled, RefusesInOneWay};
ghost use Rattle.tree_lines.specs.Nodes.{task_names};
ghost use Rattle.tree_text.specs.Text.{HasAtoms};

use net_types::Netlist;
use pb_expand::PbGraph;
use real_lines::laws_of_lines;
use task_types::Task;

/// The laws of the text, so that what `read_real` promises of its answers decides each answer: a
/// text spells at most one realisation, one that spells a realisation is refused by want of memory
/// alone, and else it is refused in one way. It does nothing.
pub fn laws_of_reals(net: &Netlist, graph: &PbGraph, task: &Task)
    requires plain { HasPlainNames graph.now.root }
    requires atoms { HasAtoms net.now.atoms task.now }
    requires nets { HasNets net.now.nets task.now }
    ensures one { SpellsOneReal graph.now task.now (task_names net.now.atoms task.now)
        (net_names net.now.nets task.now) }
    ensures read { IsReadWhereSpelled graph.now task.now (task_names net.now.atoms task.now)
        (net_names net.now.nets task.now) }
    ensures refused { RefusesInOneWay graph.now task.now (task_names net.now.atoms task.now)
        (net_names net.now.nets task.now) }
{
    net.law();
    let _task = task;
    laws_of_lines(graph);
}
