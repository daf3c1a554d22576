ghost use Rattle.std.specs.Prelude.{◌≢◌, [], length, IfOk, IfErr, OnOk, OnErr};
ghost use Rattle.prog_map.specs.Choices.{IsProgOf};
ghost use Rattle.prog_text.specs.Table.{AreNamesOf};
ghost use Rattle.real_lines.specs.Lines.{SpellsLine};
ghost use Rattle.real_text.specs.Order.{IsInOrder};
ghost use Rattle.real_text.specs.Steps.{Adds, Denies};
ghost use Rattle.real_text.specs.Text.{ReadsLine, RefusesLine, SpellsReal, Refuses};
ghost use Rattle.std.specs.Prelude.{◌≡◌};
ghost use Rattle.task_types.specs.Tasks.{HasHomesInOrder};

use crate::reading::{Reading, nothing, take_choice, take_entry, take_home};
use names::LentNames;
use pb_expand::PbGraph;
use prog_text::{GraphNames, ProgError, laws_of_lines};
use real_lines::{RealLine, read_line};
use std::alloc::Global;
use task_types::{Real, Task};
use text_parts::next_line;

/// Reads a realisation line by line; `atoms` and `nets` have the names of the task's atoms and nets.
pub(crate) fn read_lines(
    alloc: Global,
    bytes: &[u8],
    graph: &PbGraph,
    task: &Task,
    names: &GraphNames,
    atoms: &LentNames<'_>,
    nets: &LentNames<'_>,
) -> Result<Real, ProgError>
    requires names { AreNamesOf graph.now names.now }
    requires homes { HasHomesInOrder task.now }
    requires atoms { length atoms.now ≡ length task.now.atoms }
    ensures of { IfOk result (λ r. IsProgOf graph.now r.prog) }
    ensures spells { IfOk result (SpellsReal graph.now task.now atoms.now nets.now bytes.now) }
    ensures refused { IfErr result (Refuses graph.now task.now atoms.now nets.now bytes.now) }
{
    let mut reading = nothing(alloc, graph, task)?;
    let mut number: u32 = 1;
    let mut rest = bytes;
    while let Some((line, behind)) = next_line(rest) {
        add_line(
            alloc,
            line,
            number,
            graph,
            task,
            names,
            atoms,
            nets,
            &mut reading,
        )?;
        number = number.saturating_add(1);
        rest = behind;
    }
    if reading.real.homes.len() < task.atoms.len() {
        return Err(ProgError::BadLine { line: number });
    }
    Ok(reading.real)
}

/// Adds what a line says, if anything. It is the line of that number.
fn add_line(
    alloc: Global,
    text: &[u8],
    line: u32,
    graph: &PbGraph,
    task: &Task,
    names: &GraphNames,
    atoms: &LentNames<'_>,
    nets: &LentNames<'_>,
    reading: &mut Reading,
) -> Result<(), ProgError>
    requires names { AreNamesOf graph.now names.now }
    requires homes { HasHomesInOrder task.now }
    requires atoms { length atoms.now ≡ length task.now.atoms }
    requires order { IsInOrder task.now reading.old }
    requires of { IsProgOf graph.now reading.old.real.prog }
    ensures reads { OnOk result (ReadsLine graph.now task.now atoms.now nets.now text.now
        reading.old.real reading.new.real) }
    ensures order { OnOk result (IsInOrder task.now reading.new) }
    ensures of { OnOk result (IsProgOf graph.now reading.new.real.prog) }
    ensures refused { IfErr result (RefusesLine graph.now task.now atoms.now nets.now text.now
        reading.old.real line) }
{
    laws_of_lines(graph);
    if text.is_empty() {
        return Ok(());
    }
    let says = read_line(alloc, text, line, graph, task, names, atoms, nets)?;
    match says {
        RealLine::Home { place, leaf } => take_home(reading, task, place, leaf, line),
        RealLine::Enter(entry) => take_entry(reading, task, entry, line),
        RealLine::Choice(setting) => take_choice(reading, task, setting, line),
    }
}
