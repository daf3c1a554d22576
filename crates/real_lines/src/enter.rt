ghost use Rattle.std.specs.Prelude.{IfOk, IfErr, MatchOption};
ghost use Rattle.prog_text.specs.Names.{NamesPin};
ghost use Rattle.prog_text.specs.Table.{AreNamesOf};
ghost use Rattle.task_types.specs.Ends.{IsRootInput};
ghost use Rattle.real_lines.specs.Lines.{NamesEnter, LacksAtEnter, LacksPin};

use name_laws::names_are_one;
use names::LentNames;
use pb_expand::{PbGraph, PinIx};
use prog_text::{GraphNames, ProgError};
use task_options::is_root_input;
use task_types::Entry;

/// The pin and the place of the net that the words behind `enter` name, in the line of that number.
pub(crate) fn enter(
    at: &[u8],
    name: &[u8],
    line: u32,
    graph: &PbGraph,
    names: &GraphNames,
    nets: &LentNames<'_>,
) -> Result<Entry, ProgError>
    requires { AreNamesOf graph.now names.now }
    ensures names { IfOk result (λ e. NamesEnter graph.now nets.now at.now name.now e.pin.0 e.net) }
    ensures lacks { IfErr result (LacksAtEnter graph.now nets.now at.now name.now line) }
{
    let Some(pin) = input_named(at, graph, names) else {
        return Err(ProgError::NoSuchSite { line });
    };
    let Some(net) = nets.find(name) else {
        return Err(ProgError::NoSuchChoice { line });
    };
    Ok(Entry { pin, net })
}

/// The input or clock pin of the block that is written so.
fn input_named(at: &[u8], graph: &PbGraph, names: &GraphNames) -> Option<PinIx>
    requires { AreNamesOf graph.now names.now }
    ensures { MatchOption result (LacksPin graph.now at.now)
        (λ pin. NamesPin graph.now at.now pin.0 × IsRootInput graph.now pin.0) }
{
    names_are_one(graph);
    let pin = names.pin(graph, at)?;
    if !is_root_input(graph, pin) {
        return None;
    }
    Some(pin)
}
