/// A pin of the tile at a location: the location's number, and the port and the bit in the tile's
/// ports.
#[derive(Clone, Copy, Debug, PartialEq, Eq, Hash)]
pub struct TilePin {
    pub loc: u32,
    pub port: u32,
    pub bit: u32,
}

/// What carries a node's signal: nothing of its own (`SOURCE`, `SINK`), a wire that is the node's
/// alone (`CHANX`, `CHANY`), or the one wire of all nodes of a tile's pin (`OPIN`, `IPIN`).
#[derive(Clone, Copy, Debug, PartialEq, Eq)]
pub enum Carrier {
    Nothing,
    Own,
    Pin(TilePin),
}

/// A node as wires see it: its id, and what carries its signal.
#[derive(Clone, Copy, Debug, PartialEq, Eq)]
pub struct CarriedNode {
    pub id: u32,
    pub carrier: Carrier,
}
