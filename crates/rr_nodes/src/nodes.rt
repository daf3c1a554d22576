ghost use Rattle.std.specs.Prelude.{◌≡◌, ◌≤◌, ◌^◌, length, map, MatchOption};
ghost use Rattle.list_laws.specs.Orders.{Once};
ghost use Rattle.rr_nodes.specs.Placing.{HasNode, StandsAt, ids_of};
ghost use Rattle.rr_nodes.specs.Gathering.{gathered_nodes, FitTogether};

use crate::gathered::Gathered;
use crate::placed::NodeAt;
use rr_items::CarriedNode;
use std::marker::Model;

/// The nodes of a routing graph file. Contracts see the list of the nodes in the file's order; no
/// two of them have one id. Each call takes constant time and no memory.
#[derive(Drop)]
pub struct Nodes {
    gathered: Gathered,
}

impl Model for Nodes {
    ghost use Rattle.std.specs.Prelude.{List};
    ghost use Rattle.rr_nodes.specs.declared.placed.PlacedNode.{PlacedNode};
    ghost use Rattle.rr_nodes.specs.Gathering.{gathered_nodes, FitTogether};

    ghost Value = { List PlacedNode };

    ghost view = { λ n. gathered_nodes n.gathered };

    ghost invariant = { λ n. FitTogether n.gathered };
}

impl Nodes {
    /// The nodes that were gathered.
    pub(crate) fn of_gathered(gathered: Gathered) -> Nodes
        requires { FitTogether gathered }
        ensures { result ≡ gathered_nodes gathered }
    {
        Nodes { gathered }
    }

    /// Tells a caller's proof what holds of all nodes: their ids differ, and there are at most
    /// 2^31. It does nothing.
    pub fn law(&self)
        ensures once { Once (ids_of self.now) }
        ensures few { length self.now ≤ 2 ^ 31 }
    {
        let _ = self.gathered.count();
    }

    /// How many nodes there are.
    pub fn len(&self) -> u32
        ensures { result ≡ length self.now }
    {
        self.gathered.count()
    }

    /// What the node of this id is and where it stands, if there is such a node.
    pub fn node_at(&self, id: u32) -> Option<NodeAt>
        ensures { MatchOption result (HasNode self.now id → ⊥) (StandsAt self.now id) }
    {
        self.gathered.find(id)
    }

    /// The nodes' ids with what carries each, in the file's order.
    pub fn carried(&self) -> &[CarriedNode]
        ensures { result.now ≡ map (λ n. n.carried) self.now }
    {
        self.gathered.carried.as_slice()
    }
}
