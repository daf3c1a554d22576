ghost use Rattle.std.specs.Prelude.{◌≡◌, ◌==◌};
ghost use Rattle.std.specs.List.{list_any};
ghost use Rattle.task_types.specs.Tasks.{Ascend};

use pb_expand::{PbIx, PinIx};
use sqlite_items::Items;

/// The part of a netlist that one cluster is to hold: some of its atoms, and what their nets need of
/// the block type. Nets, needs and realisations speak of an atom by its place in `atoms`, and of a
/// net by its place in `nets`.
#[derive(Debug, Drop)]
pub struct Task {
    /// The number of the block type in its architecture.
    pub block: u32,
    /// The atoms, by their numbers in the netlist.
    pub atoms: Items<u32>,
    /// The nets of the atoms' connections, by their numbers in the netlist, ascending.
    pub nets: Items<TaskNet>,
    /// For each atom the leaves that can hold it, ascending.
    pub homes: Items<Items<PbIx>>,
    pub needs: Items<Need>,
    pub entries: Entries,
}

impl Task {
    ghost use Rattle.task_types.specs.Tasks.{HasHomesInOrder};
    ghost use Rattle.task_types.specs.Realises.{can_hold};

    /// Whether a leaf is listed for the atom at that place. It takes as many steps as halve the
    /// list.
    pub fn can_hold(&self, place: u32, leaf: PbIx) -> bool
        requires { HasHomesInOrder self.now }
        ensures { result ≡ can_hold self.now place leaf.0 }
    {
        match self.homes.get(place as usize) {
            None => false,
            Some(leaves) => has_leaf(leaves.as_slice(), leaf),
        }
    }
}

/// Whether a leaf is among some that ascend.
fn has_leaf(leaves: &[PbIx], leaf: PbIx) -> bool
    requires { Ascend leaves.now }
    ensures { result ≡ list_any (λ pb. pb.0 == leaf.0) leaves.now }
{
    let mut low = 0;
    let mut high = leaves.len();
    while low < high {
        let middle = low + (high - low) / 2;
        let here = leaves[middle];
        if here.0 == leaf.0 {
            return true;
        }
        if here.0 < leaf.0 {
            low = middle + 1;
        } else {
            high = middle;
        }
    }
    false
}

/// A net of a task.
#[derive(Clone, Copy, Debug, PartialEq, Eq)]
pub struct TaskNet {
    /// Its number in the netlist.
    pub net: u32,
    /// The place of the atom that drives it, where that is one of the task.
    pub maker: Option<u32>,
    /// Whether an atom outside the task reads it.
    pub leaves: bool,
}

/// What a net has to reach.
#[derive(Clone, Copy, Debug, PartialEq, Eq)]
pub enum Need {
    /// The pin of an atom's input connection, which goes by its place among the atom's inputs.
    Input { atom: u32, conn: u32, net: u32 },
    /// Some input pin of a LUT's home.
    LutNet { atom: u32, net: u32 },
    /// Some output pin of the block, where the net leaves the task or comes back in.
    Leave { net: u32 },
    /// That output pin of the block.
    LeaveAt { net: u32, pin: PinIx },
}

/// A net that comes in at an input or clock pin of the block.
#[derive(Clone, Copy, Debug, PartialEq, Eq)]
pub struct Entry {
    pub pin: PinIx,
    pub net: u32,
}

/// Where nets come in: wherever a realisation lets them, or just there.
#[derive(Debug, Drop)]
pub enum Entries {
    Free,
    /// In ascending order of the pins.
    Fixed(Items<Entry>),
}
