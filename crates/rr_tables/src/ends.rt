ghost use Rattle.std.specs.Prelude.{◌≡◌, map};
ghost use Rattle.list_laws.specs.Orders.{Once};
ghost use Rattle.rr_places.specs.Switches.{id_of};
ghost use Rattle.rr_tables.specs.Looks.{known_of};

use rr_edges::{Direction, EndTable};
use rr_items::NodeKind;
use rr_nodes::Nodes;
use rr_places::Switches;
use std::marker::Model;

/// The nodes and the switches of a routing graph file, as its edges ask for them. No two switches
/// have one id.
#[derive(Drop)]
pub struct Ends {
    nodes: Nodes,
    switches: Switches,
}

impl Model for Ends {
    ghost use Rattle.std.specs.Prelude.{map};
    ghost use Rattle.list_laws.specs.Orders.{Once};
    ghost use Rattle.rr_places.specs.Switches.{id_of};
    ghost use Rattle.rr_tables.specs.Ends.{EndParts};

    ghost Value = { EndParts };

    ghost view = { λ e. record { nodes = e.nodes; switches = e.switches } };

    ghost invariant = { λ e. Once (map id_of e.switches) };
}

impl Ends {
    /// These nodes and switches.
    pub fn new(nodes: Nodes, switches: Switches) -> Ends
        requires { Once (map id_of switches) }
        ensures nodes { result.nodes ≡ nodes }
        ensures switches { result.switches ≡ switches }
    {
        Ends { nodes, switches }
    }

    /// The nodes alone.
    pub fn into_nodes(self) -> Nodes
        ensures { result ≡ self.nodes }
    {
        self.nodes
    }
}

impl EndTable for Ends {
    ghost known = { λ e. known_of e.nodes e.switches };

    fn kind_of_node(&self, id: u32) -> Option<NodeKind> {
        self.nodes.law();
        let at = self.nodes.node_at(id)?;
        Some(at.kind)
    }

    fn switch_of(&self, id: u32) -> Option<Direction> {
        let switch = self.switches.switch(id)?;
        if switch.two_way {
            Some(Direction::BothWays)
        } else {
            Some(Direction::OneWay)
        }
    }
}
