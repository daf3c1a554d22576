ghost use Rattle.std.specs.Prelude.{◌≡◌, ◌<◌, Some, length, slice_get};
ghost use Rattle.vtr_base.specs.Lists.{Has};
ghost use Rattle.pb_expand.specs.Graph.{pin_at, pin_ix};
ghost use Rattle.task_reach.specs.Gains.{Gains};

use pb_expand::{PbGraph, PbIx, PinIx};
use sparse_set::SparseSet;

/// Adds a pin.
pub(crate) fn put_pin(pin: PinIx, reached: &mut SparseSet)
    requires { pin.0 < reached.old.room }
    ensures gains { Gains reached.old.items reached.new.items (λ q. q ≡ pin.0) }
    ensures room { reached.new.room ≡ reached.old.room }
{
    reached.insert(pin.0);
}

/// Adds the pin of that bit of a port of an instance, where there is one.
pub(crate) fn put_bit(graph: &PbGraph, pb: PbIx, port: u32, bit: u32, reached: &mut SparseSet)
    requires inside { pb.0 < length graph.now.instances }
    requires room { reached.old.room ≡ length graph.now.pins }
    ensures gains { Gains reached.old.items reached.new.items
        (λ q. slice_get graph.now.pins q ≡ Some (pin_at pb.0 port bit)) }
    ensures room { reached.new.room ≡ reached.old.room }
{
    graph.law();
    if let Some(pin) = graph.pin_of(pb, port, bit) {
        put_pin(pin, reached);
    }
}

/// Adds those of some pins that the graph has.
pub fn put_pins(graph: &PbGraph, pins: &[PinIx], listed: &mut SparseSet)
    requires room { listed.old.room ≡ length graph.now.pins }
    ensures gains { Gains listed.old.items listed.new.items
        (λ pin. (pin < length graph.now.pins) × Has pins.now (pin_ix pin)) }
    ensures room { listed.new.room ≡ listed.old.room }
{
    for pin in pins {
        put_inside(graph, *pin, listed);
    }
}

/// Adds a pin, where the graph has it.
fn put_inside(graph: &PbGraph, pin: PinIx, listed: &mut SparseSet)
    requires room { listed.old.room ≡ length graph.now.pins }
    ensures gains { Gains listed.old.items listed.new.items
        (λ q. (q < length graph.now.pins) × (q ≡ pin.0)) }
    ensures room { listed.new.room ≡ listed.old.room }
{
    if pin.0 < graph.pins() {
        put_pin(pin, listed);
    }
}
