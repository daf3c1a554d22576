ghost use Rattle.std.specs.Prelude.{IfOk, IfErr};
ghost use Rattle.prog_text.specs.Table.{AreNamesOf};
ghost use Rattle.task_types.specs.Tasks.{HasHomesInOrder};
ghost use Rattle.real_lines.specs.Lines.{SpellsLine, LacksLine};

use crate::RealLine;
use crate::enter::enter;
use crate::home::home;
use crate::words::two_behind;
use names::LentNames;
use pb_expand::PbGraph;
use prog_text::{GraphNames, ProgError, setting_of};
use std::alloc::Global;
use task_types::Task;

/// What a line spells: `home ATOM INST`, `enter PIN NET`, or what a line of a programming says. It
/// is the line of that number in its file. `atoms` has the names of the task's atoms and `nets`
/// those of its nets, by their places. It takes time linear in the line, and a look-up or a few for
/// each of its words.
pub fn read_line(
    alloc: Global,
    text: &[u8],
    line: u32,
    graph: &PbGraph,
    task: &Task,
    names: &GraphNames,
    atoms: &LentNames<'_>,
    nets: &LentNames<'_>,
) -> Result<RealLine, ProgError>
    requires names { AreNamesOf graph.now names.now }
    requires homes { HasHomesInOrder task.now }
    ensures spells { IfOk result (SpellsLine graph.now task.now atoms.now nets.now text.now) }
    ensures lacks { IfErr result (LacksLine graph.now task.now atoms.now nets.now text.now line) }
{
    if let Some((atom, instance)) = two_behind(text, b"home") {
        return match home(atom, instance, line, graph, task, names, atoms) {
            Ok((place, leaf)) => Ok(RealLine::Home { place, leaf }),
            Err(error) => Err(error),
        };
    }
    if let Some((at, name)) = two_behind(text, b"enter") {
        return match enter(at, name, line, graph, names, nets) {
            Ok(entry) => Ok(RealLine::Enter(entry)),
            Err(error) => Err(error),
        };
    }
    match setting_of(alloc, text, line, graph, names) {
        Ok(setting) => Ok(RealLine::Choice(setting)),
        Err(error) => Err(error),
    }
}
