ghost use Rattle.std.specs.Prelude.{◌≡◌, ◌≢◌, ◌<◌, ◌↔◌, ℕ, IsTrue, MatchOption, length};
ghost use Rattle.std.specs.Bool.{OnTrue};
ghost use Rattle.arch_types.specs.declared.block.Side.TheVariants.{Output};
ghost use Rattle.task_types.specs.declared.task.Entries.TheVariants.{Free};
ghost use Rattle.prog_map.specs.Choices.{IsEdgeInto};
ghost use Rattle.prog_map.specs.Leaves.{HasModes, IsLeaf};
ghost use Rattle.prog_map.specs.Live.{IsLiveAt, IsLivePin};
ghost use Rattle.task_types.specs.Decisions.{mode_in};
ghost use Rattle.task_types.specs.Ends.{IsRootInput};
ghost use Rattle.task_types.specs.Options.{IsLiveVar, IsUndecided};
ghost use Rattle.task_options.specs.Choosing.{IsVarInside};

use arch_types::{Port, Side};
use pb_expand::{EdgeIx, PbGraph, PbIx, PinIx};
use prog_map::is_leaf;
use task_trail::{Trail, is_live};
use task_types::{Entries, Task, Var};

/// Whether the graph and the task have that variable, and each mode above it is decided to be the
/// one that holds it.
pub fn is_live_var(graph: &PbGraph, task: &Task, trail: &Trail, var: Var) -> bool
    requires instances { trail.now.instances ≡ length graph.now.instances }
    ensures live { IsTrue result ↔ IsLiveVar graph.now task.now trail.now.made var }
    ensures inside { OnTrue result (IsVarInside graph.now var) }
{
    match var {
        Var::Mode(pb) => is_live_block(graph, trail, pb),
        Var::Occupant(pb) => is_live_leaf(graph, trail, pb),
        Var::Edge(pin, mode) => is_live_pin(graph, trail, pin, mode),
        Var::Entry(pin) => is_root_input(graph, pin) && is_free(&task.entries),
    }
}

/// Whether nothing is decided of a variable.
pub fn is_undecided(graph: &PbGraph, trail: &Trail, var: Var) -> bool
    requires instances { trail.now.instances ≡ length graph.now.instances }
    requires pins { trail.now.pins ≡ length graph.now.pins }
    requires inside { IsVarInside graph.now var }
    ensures { IsTrue result ↔ IsUndecided trail.now.made var }
{
    match var {
        Var::Mode(pb) => trail.mode_in(pb).is_none(),
        Var::Occupant(pb) => trail.occupant_in(pb).is_none(),
        Var::Edge(pin, mode) => trail.edge_in(pin, mode).is_none(),
        Var::Entry(pin) => trail.entry_in(pin).is_none(),
    }
}

/// Whether that is a live instance with modes.
fn is_live_block(graph: &PbGraph, trail: &Trail, pb: PbIx) -> bool
    requires instances { trail.now.instances ≡ length graph.now.instances }
    ensures { IsTrue result ↔ (HasModes graph.now pb.0 × IsLiveAt graph.now
        (mode_in trail.now.made) pb.0) }
{
    pb.0 < graph.pbs() && !is_leaf(graph, pb) && is_live(graph, trail, pb)
}

/// Whether that is a live leaf.
fn is_live_leaf(graph: &PbGraph, trail: &Trail, pb: PbIx) -> bool
    requires instances { trail.now.instances ≡ length graph.now.instances }
    ensures { IsTrue result ↔ (IsLeaf graph.now pb.0 × IsLiveAt graph.now
        (mode_in trail.now.made) pb.0) }
{
    pb.0 < graph.pbs() && is_leaf(graph, pb) && is_live(graph, trail, pb)
}

/// Whether edges lead into that pin in that mode, and their owner is live and decided to be in it.
fn is_live_pin(graph: &PbGraph, trail: &Trail, pin: PinIx, mode: u32) -> bool
    requires instances { trail.now.instances ≡ length graph.now.instances }
    ensures live { IsTrue result ↔ IsLivePin graph.now (mode_in trail.now.made) pin.0 mode }
    ensures inside { OnTrue result (pin.0 < length graph.now.pins) }
{
    graph.law();
    match first_into(graph, pin, mode) {
        None => false,
        Some(first) => is_live_edge(graph, trail, first),
    }
}

/// The first edge into a pin in a mode.
fn first_into(graph: &PbGraph, pin: PinIx, mode: u32) -> Option<EdgeIx>
    ensures { MatchOption result ((number : ℕ) → IsEdgeInto graph.now pin.0 mode number → ⊥)
        (λ edge. IsEdgeInto graph.now pin.0 mode edge.0) }
{
    graph.law();
    graph.lists_ends();
    if pin.0 >= graph.pins() {
        return None;
    }
    graph.edges_into(pin, mode).first().copied()
}

/// Whether the owner of an edge is live and decided to be in the edge's mode: then so is the pin
/// into which it leads.
fn is_live_edge(graph: &PbGraph, trail: &Trail, edge: EdgeIx) -> bool
    requires inside { edge.0 < length graph.now.edges }
    requires instances { trail.now.instances ≡ length graph.now.instances }
    ensures { (pin mode : ℕ) → IsEdgeInto graph.now pin mode edge.0 → (IsTrue result ↔ IsLivePin
        graph.now (mode_in trail.now.made) pin mode) }
{
    graph.one_owner();
    let here = graph.edge(edge);
    trail.is_in_mode(here.owner, here.mode) && is_live(graph, trail, here.owner)
}

/// Whether the task leaves open which nets come in.
fn is_free(entries: &Entries) -> bool
    ensures { IsTrue result ↔ (entries.now ≡ Free) }
{
    match entries {
        Entries::Free => true,
        Entries::Fixed(_) => false,
    }
}

/// Whether a pin is an input or clock pin of the block.
pub fn is_root_input(graph: &PbGraph, pin: PinIx) -> bool
    ensures input { IsTrue result ↔ IsRootInput graph.now pin.0 }
    ensures inside { OnTrue result (pin.0 < length graph.now.pins) }
{
    if pin.0 >= graph.pins() {
        return false;
    }
    let at = graph.pin_at(pin);
    if at.pb.0 != 0 {
        return false;
    }
    match graph.ports(at.pb).get(at.port as usize) {
        None => false,
        Some(port) => leads_in(port),
    }
}

/// Whether a port is one of inputs or a clock.
fn leads_in(port: &Port) -> bool
    ensures { IsTrue result ↔ (port.now.side ≢ Output) }
{
    port.side != Side::Output
}
