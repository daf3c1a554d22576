ghost use Rattle.std.specs.Prelude.{◌≡◌, ◌<◌, ℕ, Some, length, map, slice_get, MatchOption};
ghost use Rattle.vtr_base.specs.Lists.{Has};
ghost use Rattle.rr_grid.specs.Sizes.{IsSize};
ghost use Rattle.rr_nodes.specs.Placing.{HasNode, StandsAt};
ghost use Rattle.rr_wires.specs.declared.types.WireIx.{WireIx as wire_number};
ghost use Rattle.rr_wires.specs.Tables.{AreEdgesInto, AreEdgesOutOf};
ghost use Rattle.rr_files.specs.Accessing.{HasClass, HasFeatures};
ghost use Rattle.rr_files.specs.Sound.{IsSoundGraph};

use rr_edges::Edges;
use rr_items::TilePin;
use rr_locs::LocAt;
use rr_nodes::{NodeAt, Nodes};
use rr_tables::Layout;
use rr_wires::{REdge, REdgeIx, WireIx, Wires};
use std::marker::Model;

/// The number of a location.
#[derive(Clone, Copy, Debug, PartialEq, Eq, Hash)]
pub struct LocIx(pub u32);

/// A routing graph. Contracts see its parts. Each call takes constant time and no memory.
#[derive(Drop)]
pub struct Rr {
    layout: Layout,
    nodes: Nodes,
    edges: Edges,
    wires: Wires,
}

impl Model for Rr {
    ghost use Rattle.rr_files.specs.Parts.{GraphParts};

    ghost Value = { GraphParts };

    ghost use Rattle.rr_files.specs.Inside.{parts_of};
    ghost use Rattle.rr_files.specs.Sound.{IsSoundGraph};

    ghost view = { parts_of };

    ghost invariant = { λ r. IsSoundGraph (parts_of r) };
}

impl Rr {
    /// The graph of these parts.
    pub(crate) fn of_parts(layout: Layout, nodes: Nodes, edges: Edges, wires: Wires) -> Rr
        requires { IsSoundGraph (record
            { layout = layout; nodes = nodes; edges = edges.kept; wires = wires }) }
        ensures { result ≡ record
            { layout = layout; nodes = nodes; edges = edges.kept; wires = wires } }
    {
        Rr {
            layout,
            nodes,
            edges,
            wires,
        }
    }

    /// Tells a caller's proof what holds of all routing graphs. It does nothing.
    pub fn law(&self)
        ensures { IsSoundGraph self.now }
    {
        let _ = self.nodes.len();
    }

    /// How many locations there are.
    pub fn locs(&self) -> u32
        ensures { result ≡ length self.now.layout.locs }
    {
        self.layout.locs().locs()
    }

    /// The place, sub and tile of a location.
    pub fn loc(&self, number: LocIx) -> LocAt
        requires { number.0 < length self.now.layout.locs }
        ensures { slice_get self.now.layout.locs number.0 ≡ Some result }
    {
        self.layout.locs().loc(number.0)
    }

    /// How many columns and rows the grid has.
    pub fn size(&self) -> (u32, u32)
        ensures { IsSize self.now.layout.places result }
    {
        self.layout.size()
    }

    /// How many wires there are.
    pub fn wires(&self) -> u32
        ensures { result ≡ length self.now.wires.numbering.least }
    {
        self.wires.wires()
    }

    /// How many pairs of wires edges join.
    pub fn redges(&self) -> u32
        ensures { result ≡ length self.now.wires.edges }
    {
        self.wires.redges()
    }

    /// A pair of wires, with the nodes and the switch of the edge that owns it.
    pub fn redge(&self, number: REdgeIx) -> REdge
        requires { number.0 < length self.now.wires.edges }
        ensures { slice_get (map (λ o. o.redge) self.now.wires.edges) number.0 ≡ Some result }
    {
        self.wires.redge(number)
    }

    /// The pairs that lead into a wire, by ascending numbers.
    pub fn wires_into(&self, wire: WireIx) -> &[REdgeIx]
        requires { wire.0 < length self.now.wires.numbering.least }
        ensures { AreEdgesInto self.now.wires.edges wire result.now }
    {
        self.wires.wires_into(wire)
    }

    /// The pairs that lead out of a wire, by ascending numbers.
    pub fn wires_out_of(&self, wire: WireIx) -> &[REdgeIx]
        requires { wire.0 < length self.now.wires.numbering.least }
        ensures { AreEdgesOutOf self.now.wires.edges wire result.now }
    {
        self.wires.wires_out_of(wire)
    }

    /// The wire of a pin of the tile at a location: none where no node has the pin.
    pub fn pin_wire(&self, number: LocIx, port: u32, bit: u32) -> Option<WireIx>
        ensures { MatchOption result
            ((w : wire_number) → Has self.now.wires.numbering.pins
            (record { loc = number.0; port = port; bit = bit }, w) → ⊥)
            (λ w. Has self.now.wires.numbering.pins
            (record { loc = number.0; port = port; bit = bit }, w)) }
    {
        self.wires.pin_wire(TilePin {
            loc: number.0,
            port,
            bit,
        })
    }

    /// The wire of a node: none where no node has this id, and of a `SOURCE` or `SINK`.
    pub fn wire_of_node(&self, id: u32) -> Option<WireIx>
        ensures { MatchOption result
            ((w : wire_number) → Has self.now.wires.numbering.nodes (id, w) → ⊥)
            (λ w. Has self.now.wires.numbering.nodes (id, w)) }
    {
        self.wires.wire_of_node(id)
    }

    /// The least id of a wire's nodes.
    pub fn node_of_wire(&self, wire: WireIx) -> u32
        requires { wire.0 < length self.now.wires.numbering.least }
        ensures { slice_get self.now.wires.numbering.least wire.0 ≡ Some result }
    {
        self.wires.node_of_wire(wire)
    }

    /// The class of a pin of the tile at a location, counted from 0 in the block type: none where
    /// the block type lists no such pin.
    pub fn class_of(&self, number: LocIx, port: u32, bit: u32) -> Option<u32>
        requires { number.0 < length self.now.layout.locs }
        ensures { MatchOption result ((class : ℕ) → HasClass self.now number.0 port bit class → ⊥)
            (HasClass self.now number.0 port bit) }
    {
        let loc = self.loc(number);
        self.layout.class_of(loc, port, bit)
    }

    /// The features of the edge that owns a pair of wires, as the file has them: a text of `meta`.
    pub fn edge_features(&self, number: REdgeIx) -> &str
        requires { number.0 < length self.now.wires.edges }
        ensures { HasFeatures self.now number.0 result.now }
    {
        let place = self.wires.edge_of(number);
        self.edges.kept.as_slice()[place as usize].features.as_str()
    }

    /// What the node of this id is and where its low corner stands.
    pub fn node_at(&self, id: u32) -> Option<NodeAt>
        ensures { MatchOption result (HasNode self.now.nodes id → ⊥)
            (StandsAt self.now.nodes id) }
    {
        self.nodes.node_at(id)
    }
}
