ghost use Rattle.std.specs.Prelude.{◌≡◌, ◌<◌, ◌↔◌, ℕ, Some, IsTrue, length, slice_get};
ghost use Rattle.arch_types.specs.declared.block.Side.TheVariants.{Output};
ghost use Rattle.pb_expand.specs.declared.number.PinAt.{PinAt as PinAtSaid};
ghost use Rattle.prog_map.specs.Leaves.{IsOutput};
ghost use Rattle.task_types.specs.Ends.{IsRootOutput};
ghost use Rattle.task_reach.specs.Gains.{Gains};

use crate::bits::put_pin;
use arch_types::{Port, Side};
use pb_expand::{PbGraph, PbIx, PinAt, PinIx};
use sparse_set::SparseSet;

/// Whether a pin is of an output port.
pub(crate) fn is_output(graph: &PbGraph, pin: PinAt) -> bool
    requires { pin.pb.0 < length graph.now.instances }
    ensures { IsTrue result ↔ IsOutput graph.now pin }
{
    match graph.ports(pin.pb).get(pin.port as usize) {
        None => false,
        Some(port) => leads_out(port),
    }
}

/// Whether a port is one of outputs.
fn leads_out(port: &Port) -> bool
    ensures { IsTrue result ↔ (port.now.side ≡ Output) }
{
    port.side == Side::Output
}

/// Adds the output pins of the block.
pub(crate) fn put_root_outputs(graph: &PbGraph, reached: &mut SparseSet)
    requires room { reached.old.room ≡ length graph.now.pins }
    ensures gains { Gains reached.old.items reached.new.items (IsRootOutput graph.now) }
    ensures room { reached.new.room ≡ reached.old.room }
{
    graph.law();
    let pins = root_pins(graph);
    for pin in 0..pins {
        put_root_output(graph, PinIx(pin), reached);
    }
}

/// Adds a pin, where it is an output pin of the block.
fn put_root_output(graph: &PbGraph, pin: PinIx, reached: &mut SparseSet)
    requires room { reached.old.room ≡ length graph.now.pins }
    ensures gains { Gains reached.old.items reached.new.items
        (λ q. IsRootOutput graph.now q × (q ≡ pin.0)) }
    ensures room { reached.new.room ≡ reached.old.room }
{
    if pin.0 >= graph.pins() {
        return;
    }
    let at = graph.pin_at(pin);
    if at.pb.0 == 0 && is_output(graph, at) {
        put_pin(pin, reached);
    }
}

/// A number below which the pins of the block itself stand: all others stand behind them.
pub(crate) fn root_pins(graph: &PbGraph) -> u32
    ensures { (pin : ℕ) (at : PinAtSaid) → slice_get graph.now.pins pin ≡ Some at → at.pb.0 ≡ 0
        → pin < result }
{
    graph.law();
    let root = PbIx(0);
    graph
        .first_pin(root)
        .0
        .saturating_add(graph.pin_count(root))
}
