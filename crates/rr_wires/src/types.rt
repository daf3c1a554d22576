/// The number of a wire.
#[derive(Clone, Copy, Debug, PartialEq, Eq, Hash)]
pub struct WireIx(pub u32);

/// The number of a pair of wires that an edge joins.
#[derive(Clone, Copy, Debug, PartialEq, Eq, Hash)]
pub struct REdgeIx(pub u32);

/// An edge between two nodes, which are named by their ids, and the id of its switch.
#[derive(Clone, Copy, Debug, PartialEq, Eq)]
pub struct NodeEdge {
    pub src: u32,
    pub dst: u32,
    pub switch: u32,
}

/// A pair of wires with the edge that owns it: the edge's two nodes, by their ids, and its switch.
#[derive(Clone, Copy, Debug, PartialEq, Eq)]
pub struct REdge {
    pub src: WireIx,
    pub dst: WireIx,
    pub src_node: u32,
    pub dst_node: u32,
    pub switch: u32,
}

/// A pair of wires, with the place of the owning edge in the list of all edges.
#[derive(Clone, Copy, Debug, PartialEq, Eq)]
pub struct OwnedEdge {
    pub redge: REdge,
    pub place: u32,
}

/// Two wires, as a key.
#[derive(Clone, Copy, Debug, PartialEq, Eq, Hash)]
pub(crate) struct WirePair {
    pub(crate) src: WireIx,
    pub(crate) dst: WireIx,
}

/// Which end of a pair of wires is meant.
#[derive(Clone, Copy, Debug, PartialEq, Eq)]
pub(crate) enum End {
    Src,
    Dst,
}
