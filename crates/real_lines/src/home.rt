ghost use Rattle.std.specs.Prelude.{IfOk, IfErr};
ghost use Rattle.prog_text.specs.Table.{AreNamesOf};
ghost use Rattle.task_types.specs.Tasks.{HasHomesInOrder};
ghost use Rattle.real_lines.specs.Lines.{NamesHome, LacksAtHome};

use names::LentNames;
use pb_expand::{PbGraph, PbIx};
use prog_text::{GraphNames, ProgError, leaf_named};
use task_types::Task;

/// The place of the atom and the leaf that the words behind `home` name, in the line of that
/// number.
pub(crate) fn home(
    atom: &[u8],
    instance: &[u8],
    line: u32,
    graph: &PbGraph,
    task: &Task,
    names: &GraphNames,
    atoms: &LentNames<'_>,
) -> Result<(u32, PbIx), ProgError>
    requires names { AreNamesOf graph.now names.now }
    requires homes { HasHomesInOrder task.now }
    ensures names { IfOk result (λ r. NamesHome graph.now task.now atoms.now atom.now instance.now
        r.0 r.1.0) }
    ensures lacks { IfErr result (LacksAtHome graph.now task.now atoms.now atom.now instance.now
        line) }
{
    let Some(place) = atoms.find(atom) else {
        return Err(ProgError::NoSuchSite { line });
    };
    let Some(leaf) = leaf_named(graph, names, instance) else {
        return Err(ProgError::NoSuchSite { line });
    };
    if !task.can_hold(place, leaf) {
        return Err(ProgError::NoSuchChoice { line });
    }
    Ok((place, leaf))
}
