use rr_items::{CarriedNode, NodeKind};

/// What a node is, and the place of its low corner (`xlow` and `ylow`).
#[derive(Clone, Copy, Debug, PartialEq, Eq)]
pub struct NodeAt {
    pub kind: NodeKind,
    pub x: u32,
    pub y: u32,
}

/// A node with its id, what carries its signal, and where it stands.
#[derive(Clone, Copy, Debug, PartialEq, Eq)]
pub struct PlacedNode {
    pub carried: CarriedNode,
    pub at: NodeAt,
}
