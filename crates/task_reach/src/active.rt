ghost use Rattle.std.specs.Prelude.{◌≡◌, ◌↔◌, ℕ, Some, IsTrue, length};
ghost use Rattle.task_types.specs.Ends.{IsActive, LeavesTask};
ghost use Rattle.task_types.specs.Open.{SurelyEnters};
ghost use Rattle.task_types.specs.Decisions.{entry_in};
ghost use Rattle.task_types.specs.Realises.{net_at};
ghost use Rattle.task_reach.specs.Valid.{IsTaskOf, EntersAtRoot, AscendByPin};

use crate::roots::root_pins;
use pb_expand::{PbGraph, PinIx};
use task_open::surely_enters;
use task_trail::Trail;
use task_types::{Entries, Entry, Need, Task};

/// Whether a need has to be met, whatever is decided further: that a net leaves the block, where an
/// atom outside the task reads it or it surely comes in somewhere.
pub fn is_active(graph: &PbGraph, task: &Task, trail: &Trail, need: Need) -> bool
    requires task { IsTaskOf graph.now task.now }
    requires pins { trail.now.pins ≡ length graph.now.pins }
    requires root { EntersAtRoot graph.now trail.now.made }
    ensures { IsTrue result ↔ IsActive task.now (SurelyEnters task.now trail.now.made) need }
{
    match need {
        Need::Input { .. } => true,
        Need::LutNet { .. } => true,
        Need::Leave { net } => leaves_task(task, net) || comes_in(graph, task, trail, net),
        Need::LeaveAt { .. } => true,
    }
}

/// Whether an atom outside the task reads a net.
fn leaves_task(task: &Task, net: u32) -> bool
    ensures { IsTrue result ↔ LeavesTask task.now net }
{
    match task.nets.get(net as usize) {
        None => false,
        Some(of) => of.leaves,
    }
}

/// Whether it is fixed or decided that a net comes in somewhere.
fn comes_in(graph: &PbGraph, task: &Task, trail: &Trail, net: u32) -> bool
    requires task { IsTaskOf graph.now task.now }
    requires pins { trail.now.pins ≡ length graph.now.pins }
    requires root { EntersAtRoot graph.now trail.now.made }
    ensures { IsTrue result ↔ ((pin : ℕ) × SurelyEnters task.now trail.now.made net pin) }
{
    match &task.entries {
        Entries::Fixed(entries) => has_net(entries.as_slice(), net),
        Entries::Free => is_decided(graph, trail, net),
    }
}

/// Whether a net is among some entries.
fn has_net(entries: &[Entry], net: u32) -> bool
    requires { AscendByPin entries.now }
    ensures { IsTrue result ↔ ((pin : ℕ) × (net_at entries.now pin ≡ Some net)) }
{
    for entry in entries {
        if entry.net == net {
            return true;
        }
    }
    false
}

/// Whether it is decided of a pin that a net comes in there. It goes over the pins of the block.
fn is_decided(graph: &PbGraph, trail: &Trail, net: u32) -> bool
    requires pins { trail.now.pins ≡ length graph.now.pins }
    requires root { EntersAtRoot graph.now trail.now.made }
    ensures { IsTrue result ↔ ((pin : ℕ) × (entry_in trail.now.made pin ≡ Some (Some net))) }
{
    let pins = root_pins(graph).min(graph.pins());
    for pin in 0..pins {
        if trail.entry_in(PinIx(pin)) == Some(Some(net)) {
            return true;
        }
    }
    false
}
