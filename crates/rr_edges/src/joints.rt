ghost use Rattle.std.specs.Prelude.{MatchOption};
ghost use Rattle.rr_edges.specs.Joints.{Joins};

use rr_items::NodeKind;

/// What an edge is for: between pins and wires it is kept; one from a class of output pins to its
/// pin, or from an input pin to its class, is passed over, since it carries nothing of its own.
#[derive(Clone, Copy, Debug, PartialEq, Eq)]
pub enum Joint {
    Kept,
    PassedOver,
}

/// The joint of an edge between nodes of these kinds, where there may be one.
pub(crate) fn joint_of(from: NodeKind, to: NodeKind) -> Option<Joint>
    ensures { MatchOption result ((joint : Joint) → Joins joint from to → ⊥)
        (λ joint. Joins joint from to) }
{
    match (from, to) {
        (NodeKind::Source, NodeKind::Opin) => Some(Joint::PassedOver),
        (NodeKind::Ipin, NodeKind::Sink) => Some(Joint::PassedOver),
        (
            NodeKind::Opin | NodeKind::Chanx | NodeKind::Chany,
            NodeKind::Ipin | NodeKind::Chanx | NodeKind::Chany,
        ) => Some(Joint::Kept),
        _ => None,
    }
}
