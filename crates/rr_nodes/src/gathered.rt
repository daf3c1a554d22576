ghost use Rattle.std.specs.Prelude.{◌≡◌, ◌<◌, ◌^◌, ◌++◌, ◌∷◌, [], length, OnOk, MatchBool, MatchOption};
ghost use Rattle.rr_nodes.specs.Gathering.{gathered_nodes, FitTogether};
ghost use Rattle.rr_nodes.specs.Placing.{HasNode, StandsAt};

use crate::placed::{NodeAt, PlacedNode};
use indexmap::IndexMap;
use rr_items::CarriedNode;
use std::alloc::{AllocError, Global};

/// Nodes in the order in which they came: what carries each, and the places by id.
#[derive(Drop)]
pub(crate) struct Gathered {
    pub(crate) carried: Vec<CarriedNode>,
    pub(crate) places: IndexMap<u32, NodeAt>,
}

impl Gathered {
    /// No nodes. It takes no memory.
    pub(crate) fn new(alloc: Global) -> Gathered
        ensures none { gathered_nodes result ≡ [] }
        ensures fit { FitTogether result }
    {
        Gathered {
            carried: Vec::new(alloc),
            places: IndexMap::new(alloc),
        }
    }

    /// Adds a node whose id is new. Where memory runs out, the nodes are of no more use.
    pub(crate) fn add(&mut self, node: PlacedNode) -> Result<(), AllocError>
        requires fit { FitTogether self.old }
        requires small { node.carried.id < 2 ^ 31 }
        requires fresh { HasNode (gathered_nodes self.old) node.carried.id → ⊥ }
        ensures added { OnOk result
            (gathered_nodes self.new ≡ gathered_nodes self.old ++ node ∷ []) }
        ensures fit { OnOk result (FitTogether self.new) }
    {
        self.carried.push(node.carried)?;
        self.places.insert(node.carried.id, node.at)?;
        Ok(())
    }

    /// Where the node of this id stands.
    pub(crate) fn find(&self, id: u32) -> Option<NodeAt>
        requires { FitTogether self.now }
        ensures { MatchOption result (HasNode (gathered_nodes self.now) id → ⊥)
            (StandsAt (gathered_nodes self.now) id) }
    {
        let found = self.places.get(&id)?;
        Some(*found)
    }

    /// Whether a node has this id.
    pub(crate) fn has(&self, id: u32) -> bool
        requires { FitTogether self.now }
        ensures { MatchBool result (HasNode (gathered_nodes self.now) id)
            (HasNode (gathered_nodes self.now) id → ⊥) }
    {
        self.places.contains_key(&id)
    }

    /// How many nodes there are.
    pub(crate) fn count(&self) -> u32
        requires { FitTogether self.now }
        ensures { result ≡ length (gathered_nodes self.now) }
    {
        self.carried.len() as u32
    }
}
