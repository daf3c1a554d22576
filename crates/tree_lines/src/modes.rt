ghost use Rattle.std.specs.Prelude.{◌<◌, ◌↔◌, ℕ, IsTrue, MatchOption, length};
ghost use Rattle.prog_text.specs.Table.{AreNamesOf};
ghost use Rattle.task_types.specs.Ends.{IsRootInput};
ghost use Rattle.tree_lines.specs.Variables.{NamesModeInto};

use arch_types::Side;
use name_laws::names_are_one;
use pb_expand::{PbGraph, PinIx};
use prog_text::GraphNames;

/// The mode of this name in which an edge leads into the pin. It takes a look-up by name and a
/// search by halves.
pub(crate) fn mode_into(graph: &PbGraph, names: &GraphNames, pin: PinIx, text: &[u8]) -> Option<u32>
    requires inside { pin.0 < length graph.now.pins }
    requires of { AreNamesOf graph.now names.now }
    ensures { MatchOption result ((mode : ℕ) → NamesModeInto graph.now pin.0 text.now mode → ⊥)
        (NamesModeInto graph.now pin.0 text.now) }
{
    graph.law();
    graph.one_owner();
    graph.lists_ends();
    names_are_one(graph);
    let first = graph.edges_into_pin(pin).first()?;
    let owner = graph.edge(*first).owner;
    let mode = names.mode(graph, owner, text)?;
    if graph.edges_into(pin, mode).is_empty() {
        return None;
    }
    Some(mode)
}

/// Whether a pin is an input or clock pin of the block.
pub(crate) fn is_root_input(graph: &PbGraph, pin: PinIx) -> bool
    requires { pin.0 < length graph.now.pins }
    ensures { IsTrue result ↔ IsRootInput graph.now pin.0 }
{
    let at = graph.pin_at(pin);
    if at.pb.0 != 0 {
        return false;
    }
    match graph.ports(at.pb).get(at.port as usize) {
        Some(port) => port.side != Side::Output,
        None => false,
    }
}
