ghost use Rattle.prog_text.specs.Plain.{HasPlainNames};
ghost use Rattle.real_back.specs.Laws.{SpellsBack, IsThereWhereRealised, IsThereWhereSpelled};
ghost use Rattle.real_lines.specs.Nets.{HasNets, net_names};
ghost use Rattle.tree_lines.specs.Nodes.{task_names};
ghost use Rattle.tree_text.specs.Text.{HasAtoms};

use atom_words::names_are_words;
use net_types::Netlist;
use pb_expand::PbGraph;
use prog_text::{laws_of_lines, laws_of_names, one_division};
use task_types::Task;

/// A law of writing, for callers' proofs: the text that a realisation is written as spells it, where
/// it names what is there, and where the text of its programming spells that (which `write_prog`
/// promises). It does nothing.
pub fn written_spells(net: &Netlist, graph: &PbGraph, task: &Task)
    requires plain { HasPlainNames graph.now.root }
    requires atoms { HasAtoms net.now.atoms task.now }
    requires nets { HasNets net.now.nets task.now }
    ensures { SpellsBack graph.now task.now (task_names net.now.atoms task.now)
        (net_names net.now.nets task.now) }
{
    names_are_words(net);
    laws_of_names(graph);
    one_division();
    let _task = task;
}

/// A law of realisations, for callers' proofs: what realises a task names what is there. It does
/// nothing.
pub fn realised_is_there()
    ensures { IsThereWhereRealised }
{}

/// A law of reading, for callers' proofs: what a text spells names what is there. It does nothing.
pub fn spelled_is_there(net: &Netlist, graph: &PbGraph, task: &Task)
    ensures { IsThereWhereSpelled graph.now task.now (task_names net.now.atoms task.now)
        (net_names net.now.nets task.now) }
{
    laws_of_lines(graph);
    let _net = net;
    let _task = task;
}
