ghost use Rattle.std.specs.Prelude.{◌≡◌, ◌<◌, ◌-◌, ◌^◌, [], Some, length, map, slice_get, IfOk, OnOk, MatchOption};
ghost use Rattle.std.specs.List.{All};
ghost use Rattle.vtr_base.specs.Lists.{Has};
ghost use Rattle.list_laws.specs.Orders.{Once, Ordered};
ghost use Rattle.rr_wires.specs.Wires.{no_wires, IsNumberingOf};
ghost use Rattle.rr_wires.specs.Steps.{with_node, AddsNode, AddsPinNode, AddsWire, HaveLows};

use crate::order::by_id;
use crate::types::WireIx;
use indexmap::IndexMap;
use rr_items::{CarriedNode, Carrier, TilePin};
use std::alloc::{AllocError, Global};
use std::marker::Model;

/// The wires by ascending least node, with the wire of each node and of each tile pin.
#[derive(Drop)]
pub(crate) struct WireNumbers {
    /// The least node of each wire.
    least: Vec<u32>,
    nodes: IndexMap<u32, WireIx>,
    pins: IndexMap<TilePin, WireIx>,
}

impl Model for WireNumbers {
    ghost use Rattle.rr_wires.specs.Numbering.{Numbering};

    ghost Value = { Numbering };

    ghost view = { λ n. record {
      least = n.least.items;
      nodes = n.nodes.entries;
      pins = n.pins.entries;
    } };
}

impl WireNumbers {
    /// The wires of these nodes.
    pub(crate) fn of(alloc: Global, nodes: &[CarriedNode]) -> Result<WireNumbers, AllocError>
        requires ids { Once (map (λ n. n.id) nodes.now) }
        requires few { length nodes.now < 2 ^ 32 - 1 }
        ensures numbers { IfOk result (IsNumberingOf nodes.now) }
        ensures lows { OnOk result (HaveLows nodes.now) }
        ensures few { IfOk result (λ numbers. length numbers.least < 2 ^ 32 - 1) }
    {
        let sorted = by_id(alloc, nodes)?;
        Ok(WireNumbers::of_sorted(alloc, sorted.as_slice())?)
    }

    /// The wires of nodes that stand by ascending ids.
    fn of_sorted(alloc: Global, nodes: &[CarriedNode]) -> Result<WireNumbers, AllocError>
        requires ids { Ordered (λ n m. n.id < m.id) nodes.now }
        requires few { length nodes.now < 2 ^ 32 - 1 }
        ensures numbers { IfOk result (IsNumberingOf nodes.now) }
        ensures lows { OnOk result (HaveLows nodes.now) }
        ensures few { IfOk result (λ numbers. length numbers.least < 2 ^ 32 - 1) }
    {
        let mut numbers = WireNumbers::new(alloc);
        for node in nodes {
            numbers.add(*node)?;
        }
        Ok(numbers)
    }

    /// No wires. It takes no memory.
    fn new(alloc: Global) -> WireNumbers
        ensures { result ≡ no_wires }
    {
        WireNumbers {
            least: Vec::new(alloc),
            nodes: IndexMap::new(alloc),
            pins: IndexMap::new(alloc),
        }
    }

    /// Adds a node whose id is above all ids before.
    fn add(&mut self, node: CarriedNode) -> Result<(), AllocError>
        requires few { length self.old.least < 2 ^ 32 - 1 }
        requires fresh { (w : WireIx) → Has self.old.nodes (node.id, w) → ⊥ }
        ensures { OnOk result (AddsNode self.old node self.new) }
    {
        match node.carrier {
            Carrier::Nothing => Ok(()),
            Carrier::Own => {
                let wire = self.start(node.id)?;
                self.put_node(node.id, wire)
            }
            Carrier::Pin(pin) => self.add_pin_node(node.id, pin),
        }
    }

    /// Adds a node of a tile pin to the pin's wire, which is a new one where the pin has none yet.
    fn add_pin_node(&mut self, id: u32, pin: TilePin) -> Result<(), AllocError>
        requires few { length self.old.least < 2 ^ 32 - 1 }
        requires fresh { (w : WireIx) → Has self.old.nodes (id, w) → ⊥ }
        ensures { OnOk result (AddsPinNode self.old id pin self.new) }
    {
        if let Some(wire) = self.of_pin(pin) {
            return self.put_node(id, wire);
        }
        let wire = self.start(id)?;
        self.pins.insert(pin, wire)?;
        self.put_node(id, wire)
    }

    /// Starts a wire at its least node.
    fn start(&mut self, id: u32) -> Result<WireIx, AllocError>
        requires { length self.old.least < 2 ^ 32 - 1 }
        ensures { IfOk result (AddsWire self.old id self.new) }
    {
        let wire = WireIx(self.count());
        self.least.push(id)?;
        Ok(wire)
    }

    /// Says which wire a node is of.
    fn put_node(&mut self, id: u32, wire: WireIx) -> Result<(), AllocError>
        requires { (w : WireIx) → Has self.old.nodes (id, w) → ⊥ }
        ensures { OnOk result (self.new ≡ with_node self.old id wire) }
    {
        self.nodes.insert(id, wire)?;
        Ok(())
    }

    /// How many wires there are.
    pub(crate) fn count(&self) -> u32
        requires { length self.now.least < 2 ^ 32 }
        ensures { result ≡ length self.now.least }
    {
        self.least.len() as u32
    }

    /// The wire of a node.
    pub(crate) fn of_node(&self, id: u32) -> Option<WireIx>
        ensures { MatchOption result ((w : WireIx) → Has self.now.nodes (id, w) → ⊥)
            (λ w. Has self.now.nodes (id, w)) }
    {
        self.nodes.get(&id).copied()
    }

    /// The wire of a tile pin.
    pub(crate) fn of_pin(&self, pin: TilePin) -> Option<WireIx>
        ensures { MatchOption result ((w : WireIx) → Has self.now.pins (pin, w) → ⊥)
            (λ w. Has self.now.pins (pin, w)) }
    {
        self.pins.get(&pin).copied()
    }

    /// The least node of a wire.
    pub(crate) fn least(&self, wire: WireIx) -> u32
        requires { wire.0 < length self.now.least }
        ensures { slice_get self.now.least wire.0 ≡ Some result }
    {
        self.least[wire.0 as usize]
    }
}
