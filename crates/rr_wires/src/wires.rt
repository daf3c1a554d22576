ghost use Rattle.std.specs.Prelude.{◌≡◌, ◌<◌, ◌-◌, ◌^◌, Some, length, map, slice_get, IfOk, MatchOption};
ghost use Rattle.vtr_base.specs.Lists.{Has};
ghost use Rattle.list_laws.specs.Orders.{Once};
ghost use Rattle.rr_wires.specs.Wires.{HasWiredEnds, IsGraphOf};
ghost use Rattle.rr_wires.specs.Tables.{AreEdgesInto, AreEdgesOutOf};
ghost use Rattle.rr_wires.specs.Sound.{IsSound};

use crate::numbers::WireNumbers;
use crate::owned::owned_edges;
use crate::tables::lists_by;
use crate::types::{End, NodeEdge, OwnedEdge, REdge, REdgeIx, WireIx};
use flat_tables::FlatTable;
use rr_items::{CarriedNode, TilePin};
use std::alloc::{AllocError, Global};
use std::marker::Model;

/// The wires of a routing graph, and the pairs of wires that edges join. Wires are numbered by
/// their least node ids, pairs by the places of the edges that own them. Each accessor takes
/// constant time and no memory.
#[derive(Drop)]
pub struct Wires {
    numbers: WireNumbers,
    edges: Vec<OwnedEdge>,
    into: FlatTable<REdgeIx>,
    out_of: FlatTable<REdgeIx>,
}

impl Model for Wires {
    ghost use Rattle.rr_wires.specs.Numbering.{WireGraph};

    ghost Value = { WireGraph };

    ghost use Rattle.rr_wires.specs.Inside.{graph_of, IsHeld};

    ghost view = { graph_of };

    ghost invariant = { IsHeld };
}

impl Wires {
    /// The wires of nodes, and the pairs of wires that edges join. All nodes of one tile pin are
    /// one wire, and each `CHANX` or `CHANY` node is one; the first edge in the list for a pair of
    /// wires owns the pair. It takes linear time and memory, but for sorting the nodes by ids.
    pub fn of_graph(
        alloc: Global,
        nodes: &[CarriedNode],
        edges: &[NodeEdge],
    ) -> Result<Wires, AllocError>
        requires ids { Once (map (λ n. n.id) nodes.now) }
        requires ends { (e : NodeEdge) → Has edges.now e → HasWiredEnds nodes.now e }
        requires few_nodes { length nodes.now < 2 ^ 32 - 1 }
        requires few_edges { length edges.now < 2 ^ 32 - 1 }
        ensures { IfOk result (IsGraphOf nodes.now edges.now) }
    {
        let numbers = WireNumbers::of(alloc, nodes)?;
        let edges = owned_edges(alloc, &numbers, edges)?;
        let wires = numbers.count();
        let into = lists_by(alloc, edges.as_slice(), End::Dst, wires)?;
        let out_of = lists_by(alloc, edges.as_slice(), End::Src, wires)?;
        Ok(Wires {
            numbers,
            edges,
            into,
            out_of,
        })
    }

    /// Tells a caller's proof what holds of all wires and pairs. It does nothing.
    pub fn law(&self)
        ensures { IsSound self.now }
    {
        let _ = self.edges.len();
    }

    /// How many wires there are.
    pub fn wires(&self) -> u32
        ensures { result ≡ length self.now.numbering.least }
    {
        self.numbers.count()
    }

    /// How many pairs of wires are joined.
    pub fn redges(&self) -> u32
        ensures { result ≡ length self.now.edges }
    {
        self.edges.len() as u32
    }

    /// A pair of wires with its edge.
    pub fn redge(&self, number: REdgeIx) -> REdge
        requires { number.0 < length self.now.edges }
        ensures { slice_get (map (λ o. o.redge) self.now.edges) number.0 ≡ Some result }
    {
        self.edges[number.0 as usize].redge
    }

    /// The place of the edge that owns a pair, in the list of edges that was given.
    pub fn edge_of(&self, number: REdgeIx) -> u32
        requires { number.0 < length self.now.edges }
        ensures { slice_get (map (λ o. o.place) self.now.edges) number.0 ≡ Some result }
    {
        self.edges[number.0 as usize].place
    }

    /// The pairs that lead into a wire, by ascending numbers.
    pub fn wires_into(&self, wire: WireIx) -> &[REdgeIx]
        requires { wire.0 < length self.now.numbering.least }
        ensures { AreEdgesInto self.now.edges wire result.now }
    {
        self.into.group(wire.0)
    }

    /// The pairs that lead out of a wire, by ascending numbers.
    pub fn wires_out_of(&self, wire: WireIx) -> &[REdgeIx]
        requires { wire.0 < length self.now.numbering.least }
        ensures { AreEdgesOutOf self.now.edges wire result.now }
    {
        self.out_of.group(wire.0)
    }

    /// The wire of a node: none where no node has this id, and where nothing carries its signal.
    pub fn wire_of_node(&self, id: u32) -> Option<WireIx>
        ensures { MatchOption result
            ((w : WireIx) → Has self.now.numbering.nodes (id, w) → ⊥)
            (λ w. Has self.now.numbering.nodes (id, w)) }
    {
        self.numbers.of_node(id)
    }

    /// The wire of a tile's pin: none where no node has the pin.
    pub fn pin_wire(&self, pin: TilePin) -> Option<WireIx>
        ensures { MatchOption result
            ((w : WireIx) → Has self.now.numbering.pins (pin, w) → ⊥)
            (λ w. Has self.now.numbering.pins (pin, w)) }
    {
        self.numbers.of_pin(pin)
    }

    /// The least id of a wire's nodes.
    pub fn node_of_wire(&self, wire: WireIx) -> u32
        requires { wire.0 < length self.now.numbering.least }
        ensures { slice_get self.now.numbering.least wire.0 ≡ Some result }
    {
        self.numbers.least(wire)
    }
}
