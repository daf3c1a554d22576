ghost use Rattle.std.specs.Prelude.{◌≡◌, ◌<◌, ◌↔◌, ℕ, IsTrue, MatchOption, length};
ghost use Rattle.prog_text.specs.Table.{AreNamesOf};
ghost use Rattle.prog_text.specs.NamedEdges.{IsEdgeWanted, IsEdgeIn, ComesFrom};

use crate::GraphNames;
use crate::words::is_same;
use pb_expand::{EdgeIx, PbGraph, PbIx, PinIx};

/// An edge into a pin in a mode of this name, from the source that is wanted where one is.
pub(crate) fn find_edge(
    graph: &PbGraph,
    names: &GraphNames,
    pin: PinIx,
    mode: &[u8],
    wanted: Option<PinIx>,
) -> Option<EdgeIx>
    requires inside { pin.0 < length graph.now.pins }
    requires of { AreNamesOf graph.now names.now }
    ensures { MatchOption result ((edge : ℕ) → IsEdgeWanted graph.now edge pin.0 mode.now wanted
        → ⊥) (λ edge. IsEdgeWanted graph.now edge.0 pin.0 mode.now wanted) }
{
    graph.law();
    let pb = graph.pin_at(pin).pb;
    if let Some(edge) = find_own(graph, names, pin, pb, mode, wanted) {
        return Some(edge);
    }
    match graph.address_of(pb) {
        None => None,
        Some(step) => {
            if !is_same(graph.mode_name(step.parent, step.mode).as_bytes(), mode) {
                return None;
            }
            find_in_mode(graph, pin, step.parent, step.mode, wanted)
        }
    }
}

/// The same among the edges of the pin's own instance.
fn find_own(
    graph: &PbGraph,
    names: &GraphNames,
    pin: PinIx,
    pb: PbIx,
    mode: &[u8],
    wanted: Option<PinIx>,
) -> Option<EdgeIx>
    requires pin { pin.0 < length graph.now.pins }
    requires pb { pb.0 < length graph.now.instances }
    requires of { AreNamesOf graph.now names.now }
    ensures { MatchOption result ((edge : ℕ) (is : IsEdgeWanted graph.now edge pin.0 mode.now
        wanted) → is.edge.owner.0 ≡ pb.0 → ⊥) (λ edge. IsEdgeWanted graph.now edge.0 pin.0 mode.now
        wanted) }
{
    graph.law();
    match names.mode(graph, pb, mode) {
        None => None,
        Some(number) => find_in_mode(graph, pin, pb, number, wanted),
    }
}

/// The same among the edges of one mode of an instance.
fn find_in_mode(
    graph: &PbGraph,
    pin: PinIx,
    owner: PbIx,
    mode: u32,
    wanted: Option<PinIx>,
) -> Option<EdgeIx>
    requires { pin.0 < length graph.now.pins }
    ensures { MatchOption result ((edge : ℕ) → IsEdgeIn graph.now edge pin.0 owner.0 mode wanted
        → ⊥) (λ edge. IsEdgeIn graph.now edge.0 pin.0 owner.0 mode wanted) }
{
    for edge in graph.edges_into(pin, mode) {
        if is_wanted(graph, *edge, pin, owner, mode, wanted) {
            return Some(*edge);
        }
    }
    None
}

/// Whether an edge is one that is looked for.
fn is_wanted(
    graph: &PbGraph,
    number: EdgeIx,
    pin: PinIx,
    owner: PbIx,
    mode: u32,
    wanted: Option<PinIx>,
) -> bool
    ensures { IsTrue result ↔ IsEdgeIn graph.now number.0 pin.0 owner.0 mode wanted }
{
    if number.0 >= graph.edges() {
        return false;
    }
    let edge = graph.edge(number);
    if edge.dst != pin {
        return false;
    }
    if edge.owner != owner {
        return false;
    }
    if !comes_from(wanted, edge.src) {
        return false;
    }
    edge.mode == mode
}

/// Whether the source is the one that is wanted, where one is.
fn comes_from(wanted: Option<PinIx>, source: PinIx) -> bool
    ensures { IsTrue result ↔ ComesFrom wanted source.0 }
{
    match wanted {
        None => true,
        Some(pin) => source == pin,
    }
}
