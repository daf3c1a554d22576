ghost use Rattle.std.specs.Prelude.{IfOk, IfErr};
ghost use Rattle.prog_map.specs.Choices.{IsProgOf};
ghost use Rattle.prog_text.specs.Plain.{HasPlainNames};
ghost use Rattle.real_lines.specs.Nets.{HasNets, net_names};
ghost use Rattle.real_text.specs.Text.{SpellsReal, Refuses};
ghost use Rattle.task_types.specs.Tasks.{HasHomesInOrder};
ghost use Rattle.tree_lines.specs.Nodes.{task_names};
ghost use Rattle.tree_text.specs.Text.{HasAtoms};

use crate::lines::read_lines;
use crate::nets_by_name;
use net_types::Netlist;
use pb_expand::PbGraph;
use prog_text::{GraphNames, ProgError};
use std::alloc::Global;
use task_types::{Real, Task};
use tree_text::task_atoms;

/// Reads a realisation of the task: a line `home ATOM INST` for each atom, in the order of the
/// task, lines `enter PIN NET` by ascending pins, and then the programming as `read_prog` reads it.
/// Words are divided by one blank each, and empty lines are passed over. The first line that can't
/// be read is told, or the one behind the last where a home is missing: a line is looked at for its
/// form (51), for what it names (52), for whether that may be chosen (53), for whether a home is
/// missing or something is set again (54), and for its order (51). It takes time linear in the
/// bytes, the names of the graph, and the atoms and nets of the task, and a look-up or a few a word.
pub fn read_real(
    alloc: Global,
    bytes: &[u8],
    net: &Netlist,
    graph: &PbGraph,
    task: &Task,
) -> Result<Real, ProgError>
    requires plain { HasPlainNames graph.now.root }
    requires atoms { HasAtoms net.now.atoms task.now }
    requires nets { HasNets net.now.nets task.now }
    requires homes { HasHomesInOrder task.now }
    ensures of { IfOk result (λ r. IsProgOf graph.now r.prog) }
    ensures spells { IfOk result (SpellsReal graph.now task.now (task_names net.now.atoms task.now)
        (net_names net.now.nets task.now) bytes.now) }
    ensures refused { IfErr result (Refuses graph.now task.now (task_names net.now.atoms task.now)
        (net_names net.now.nets task.now) bytes.now) }
{
    let names = GraphNames::new(alloc, graph)?;
    let atoms = task_atoms(alloc, net, task)?;
    let nets = nets_by_name(alloc, net, task)?;
    read_lines(alloc, bytes, graph, task, &names, &atoms, &nets)
}
