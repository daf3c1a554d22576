ghost use Rattle.std.specs.Prelude.{MatchOption};
ghost use Rattle.rr_items.specs.declared.carriers.Carrier.{Carrier as Carries};
ghost use Rattle.rr_nodes.specs.Carriers.{HasCarrier, HasPinCarrier};

use crate::pins::PinTable;
use rr_items::{Carrier, Node, NodeKind};

/// What carries a node's signal, where the block at its low corner has its pin on the right side.
pub(crate) fn carrier_of<T: PinTable>(node: &Node, pins: &T) -> Option<Carrier>
    ensures { MatchOption result
        ((carrier : Carries) → HasCarrier (T.pin_of pins.now) node.now carrier → ⊥)
        (HasCarrier (T.pin_of pins.now) node.now) }
{
    match node.kind {
        NodeKind::Source | NodeKind::Sink => Some(Carrier::Nothing),
        NodeKind::Chanx | NodeKind::Chany => Some(Carrier::Own),
        NodeKind::Opin => carried_by_pin(node, true, pins),
        NodeKind::Ipin => carried_by_pin(node, false, pins),
    }
}

/// The pin that carries a pin node, where it is an output pin or, as asked for, none.
fn carried_by_pin<T: PinTable>(node: &Node, is_output: bool, pins: &T) -> Option<Carrier>
    ensures { MatchOption result
        ((carrier : Carries) → HasPinCarrier (T.pin_of pins.now) node.now is_output carrier → ⊥)
        (HasPinCarrier (T.pin_of pins.now) node.now is_output) }
{
    let number = node.pin?;
    let found = pins.pin_at(node.span.x_low, node.span.y_low, number)?;
    if found.is_output != is_output {
        return None;
    }
    Some(Carrier::Pin(found.pin))
}
