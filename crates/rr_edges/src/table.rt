ghost use Rattle.std.specs.Prelude.{◌≡◌};
ghost use Rattle.rr_edges.specs.Known.{Known};

use rr_items::NodeKind;

/// Which ways a switch leads.
#[derive(Clone, Copy, Debug, PartialEq, Eq)]
pub enum Direction {
    OneWay,
    BothWays,
}

/// What is known of a routing graph file's nodes and switches, by their ids.
pub trait EndTable {
    ghost known: { Self → Known };

    /// The kind of the node of this id, where the file has one.
    fn kind_of_node(&self, id: u32) -> Option<NodeKind>
        ensures { result ≡ (known self.now).kind id };

    /// The ways that the switch of this id leads, where the file has one.
    fn switch_of(&self, id: u32) -> Option<Direction>
        ensures { result ≡ (known self.now).ways id };
}
