ghost use Rattle.std.specs.Prelude.{◌≢◌, [], IfOk, IfErr, OnOk, OnErr};
ghost use Rattle.prog_map.specs.Choices.{IsProgOf};
ghost use Rattle.prog_text.specs.Plain.{HasPlainNames};
ghost use Rattle.prog_text.specs.Table.{AreNamesOf};
ghost use Rattle.prog_text.specs.Text.{SpellsProg, ReadsLine, RefusesLine, Refuses, RefusesFrom};

use crate::resolve::setting_of;
use crate::{GraphNames, ProgError, next_line};
use pb_expand::PbGraph;
use prog_map::Prog;
use std::alloc::Global;

/// Reads a programming of the graph: one choice a line, `mode INST MODE`, `pin PIN MODE PIN`,
/// `used INST`, `lut INST wire K` or `lut INST table BITS`, its words divided by one blank. Empty
/// lines are passed over. The first line that can't be read is told.
pub fn read_prog(alloc: Global, bytes: &[u8], graph: &PbGraph) -> Result<Prog, ProgError>
    requires { HasPlainNames graph.now.root }
    ensures of { IfOk result (λ p. IsProgOf graph.now p) }
    ensures spells { IfOk result (λ p. SpellsProg graph.now bytes.now p) }
    ensures refused { IfErr result (Refuses graph.now bytes.now) }
{
    let names = GraphNames::new(alloc, graph)?;
    read_prog_from(alloc, bytes, 1, graph, &names)
}

/// Reads a programming whose first line has this number in its file.
pub fn read_prog_from(
    alloc: Global,
    bytes: &[u8],
    first: u32,
    graph: &PbGraph,
    names: &GraphNames,
) -> Result<Prog, ProgError>
    requires { AreNamesOf graph.now names.now }
    ensures of { IfOk result (λ p. IsProgOf graph.now p) }
    ensures spells { IfOk result (λ p. SpellsProg graph.now bytes.now p) }
    ensures refused { IfErr result (RefusesFrom graph.now first bytes.now) }
{
    let mut prog = Prog::empty(alloc, graph)?;
    let mut rest = bytes;
    let mut number = first;
    while let Some((line, behind)) = next_line(rest) {
        read_line(alloc, line, number, graph, names, &mut prog)?;
        number = number.saturating_add(1);
        rest = behind;
    }
    Ok(prog)
}

/// Sets the site that a line names; an empty line names none. It is the line of that number.
fn read_line(
    alloc: Global,
    text: &[u8],
    line: u32,
    graph: &PbGraph,
    names: &GraphNames,
    prog: &mut Prog,
) -> Result<(), ProgError>
    requires of { IsProgOf graph.now prog.old }
    requires names { AreNamesOf graph.now names.now }
    ensures of { OnOk result (IsProgOf graph.now prog.new) }
    ensures reads { OnOk result (ReadsLine graph.now text.now prog.old prog.new) }
    ensures some { OnErr result (text.now ≢ []) }
    ensures refused { IfErr result (RefusesLine graph.now text.now prog.old line) }
{
    if text.is_empty() {
        return Ok(());
    }
    let setting = setting_of(alloc, text, line, graph, names)?;
    if prog.is_set(setting.site()) {
        return Err(ProgError::TwiceSet { line });
    }
    prog.set(setting)?;
    Ok(())
}
