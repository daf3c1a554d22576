ghost use Rattle.std.specs.Prelude.{MatchOption, MatchResult};
ghost use Rattle.rr_nodes.specs.Gathering.{gathered_nodes, FitTogether};
ghost use Rattle.rr_nodes.specs.Saying.{IsPlaced, IsNewNode};
ghost use Rattle.rr_nodes.specs.Carriers.{HasCarrier};
ghost use Rattle.rr_items.specs.declared.carriers.Carrier.{Carrier as Carries};
ghost use Rattle.rr_nodes.specs.Refusing.{TellsId, Fails};

use crate::carried::carrier_of;
use crate::error::NodeError;
use crate::gathered::Gathered;
use crate::pins::PinTable;
use crate::placed::{NodeAt, PlacedNode};
use elem_reading::number_within;
use elem_text::Elem;
use rr_items::{CarriedNode, Node, NodeFault, one_item, read_node};

/// The next node, which its element says.
pub(crate) fn next_node<T: PinTable>(
    elem: &Elem,
    before: &Gathered,
    pins: &T,
) -> Result<PlacedNode, NodeError>
    requires { FitTogether before.now }
    ensures { MatchResult result
        (IsNewNode (T.pin_of pins.now) (gathered_nodes before.now) elem.now)
        (Fails (T.pin_of pins.now) (gathered_nodes before.now) elem.now) }
{
    one_item();
    let id = told_id(elem, before.count());
    match read_node(elem) {
        Err(NodeFault::Item) => Err(NodeError::BadNode { id }),
        Err(NodeFault::Layer) => {
            if before.has(id) {
                return Err(NodeError::BadNode { id });
            }
            Err(NodeError::Layer)
        }
        Ok(node) => {
            if before.has(id) {
                return Err(NodeError::BadNode { id });
            }
            placed_node(&node, pins).ok_or(NodeError::NodeWithoutPin { id })
        }
    }
}

/// The id that an element holds, or else the node's index.
fn told_id(elem: &Elem, index: u32) -> u32
    ensures { TellsId elem.now index result }
{
    match number_within(elem, b"id", i32::MAX as u32) {
        Some(id) => id,
        None => index,
    }
}

/// The node with what carries it, where something does.
fn placed_node<T: PinTable>(node: &Node, pins: &T) -> Option<PlacedNode>
    ensures { MatchOption result
        ((carrier : Carries) → HasCarrier (T.pin_of pins.now) node.now carrier → ⊥)
        (IsPlaced (T.pin_of pins.now) node.now) }
{
    let carrier = carrier_of(node, pins)?;
    Some(PlacedNode {
        carried: CarriedNode {
            id: node.id,
            carrier,
        },
        at: NodeAt {
            kind: node.kind,
            x: node.span.x_low,
            y: node.span.y_low,
        },
    })
}
