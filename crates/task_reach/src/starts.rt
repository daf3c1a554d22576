ghost use Rattle.std.specs.Prelude.{◌≡◌, ◌<◌, ◌↔◌, IsTrue, length};
ghost use Rattle.task_types.specs.Ends.{net_of, IsFed, IsFirstPin};
ghost use Rattle.task_types.specs.Open.{IsOpenTo, MayEnter, MayStart};
ghost use Rattle.task_reach.specs.Valid.{IsTaskOf};
ghost use Rattle.task_reach.specs.Reached.{DrivesAt};

use crate::conns::fits_out;
use crate::ends::atom_at;
use arch_types::AtomKind;
use net_types::{Conn, Netlist};
use pb_expand::{PbGraph, PinAt, PinIx};
use task_open::{is_open_to, may_enter};
use task_options::is_root_input;
use task_trail::Trail;
use task_types::{Need, Task};

/// Whether the net of a need may come from a pin, as far as decisions leave that open: the pin is
/// one at which the net's maker may drive it, or the net may come in there.
pub fn may_start(
    net: &Netlist,
    graph: &PbGraph,
    task: &Task,
    trail: &Trail,
    need: Need,
    pin: PinIx,
) -> bool
    requires task { IsTaskOf graph.now task.now }
    requires pin { pin.0 < length graph.now.pins }
    requires atoms { trail.now.atoms ≡ length task.now.atoms }
    requires instances { trail.now.instances ≡ length graph.now.instances }
    requires pins { trail.now.pins ≡ length graph.now.pins }
    ensures { IsTrue result ↔ MayStart graph.now net.now.atoms task.now trail.now.made need pin.0 }
{
    if is_first_pin(net, graph, task, trail, net_of(need), pin) {
        return true;
    }
    is_fed(need) && may_come_in(graph, task, trail, net_of(need), pin)
}

/// The net of a need.
pub fn net_of(need: Need) -> u32
    ensures { result ≡ net_of need }
{
    match need {
        Need::Input { net, .. } => net,
        Need::LutNet { net, .. } => net,
        Need::Leave { net } => net,
        Need::LeaveAt { net, .. } => net,
    }
}

/// Whether a net may feed the need from outside.
fn is_fed(need: Need) -> bool
    ensures { IsTrue result ↔ IsFed need }
{
    match need {
        Need::Input { .. } => true,
        Need::LutNet { .. } => true,
        Need::Leave { .. } => false,
        Need::LeaveAt { .. } => false,
    }
}

/// Whether a net may come in at a pin.
fn may_come_in(graph: &PbGraph, task: &Task, trail: &Trail, net: u32, pin: PinIx) -> bool
    requires pin { pin.0 < trail.now.pins }
    ensures { IsTrue result ↔ MayEnter graph.now task.now trail.now.made net pin.0 }
{
    may_enter(&task.entries, trail, net, pin) && is_root_input(graph, pin)
}

/// Whether a pin is one at which a net's maker may drive the net.
fn is_first_pin(
    net: &Netlist,
    graph: &PbGraph,
    task: &Task,
    trail: &Trail,
    number: u32,
    pin: PinIx,
) -> bool
    requires task { IsTaskOf graph.now task.now }
    requires pin { pin.0 < length graph.now.pins }
    requires atoms { trail.now.atoms ≡ length task.now.atoms }
    requires instances { trail.now.instances ≡ length graph.now.instances }
    ensures { IsTrue result ↔ IsFirstPin graph.now net.now.atoms task.now
        (IsOpenTo graph.now task.now trail.now.made) number pin.0 }
{
    let Some(of) = task.nets.get(number as usize) else {
        return false;
    };
    let Some(maker) = of.maker else {
        return false;
    };
    let Some(atom) = atom_at(net, task, maker) else {
        return false;
    };
    let at = graph.pin_at(pin);
    if !drives_at(graph, atom.kind, atom.outs.as_slice(), of.net, at) {
        return false;
    }
    is_open_to(graph, task, trail, maker, at.pb)
}

/// Whether a pin is one of an output connection of an atom of that kind, at which it drives the net
/// of that number of the netlist.
fn drives_at(graph: &PbGraph, kind: AtomKind, outs: &[Conn], net: u32, at: PinAt) -> bool
    requires { at.pb.0 < length graph.now.instances }
    ensures { IsTrue result ↔ DrivesAt graph.now kind outs.now net at }
{
    let Some(port) = graph.ports(at.pb).get(at.port as usize) else {
        return false;
    };
    for out in outs {
        if out.net == net && out.bit == at.bit && fits_out(kind, out, port) {
            return true;
        }
    }
    false
}
