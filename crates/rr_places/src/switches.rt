ghost use Rattle.std.specs.Prelude.{◌≡◌, Bool, map, MatchOption, IfOk, IfErr};
ghost use Rattle.vtr_base.specs.Lists.{Has};
ghost use Rattle.rr_places.specs.Switches.{AreSwitches, IsSwitchRefused, IsBadSwitch, HasId, id_of};
ghost use Rattle.rr_items.specs.Switches.{SaysSwitch};
ghost use Rattle.rr_places.specs.Reading.{AreRead, IsFirstRefused, OrMemory};

use crate::error::PlaceError;
use crate::keyed::{add, find};
use elem_reading::kids_under;
use elem_text::Elem;
use indexmap::IndexMap;
use rr_items::{Switch, one_item, read_switch};
use std::alloc::Global;
use std::marker::Model;

/// The switches of a routing graph by their ids. Contracts see their list.
#[derive(Drop)]
pub struct Switches {
    by_id: IndexMap<u32, bool>,
}

impl Model for Switches {
    ghost use Rattle.std.specs.Prelude.{List};
    ghost use Rattle.rr_items.specs.declared.switches.Switch.{Switch as Listed};
    ghost use Rattle.rr_places.specs.Switches.{switches_of};

    ghost Value = { List Listed };

    ghost view = { λ s. switches_of s.by_id.entries };
}

impl Switches {
    /// The switch of this id.
    pub fn switch(&self, id: u32) -> Option<Switch>
        ensures { MatchOption result ((s : Switch) → HasId self.now id s → ⊥) (HasId self.now id) }
    {
        let two_way = *find(&self.by_id, id)?;
        Some(Switch { id, two_way })
    }
}

/// The switches of a routing graph file, from its root.
pub fn read_switches(alloc: Global, root: &Elem) -> Result<Switches, PlaceError>
    ensures read { IfOk result (AreSwitches root.now) }
    ensures refused { IfErr result (OrMemory (IsSwitchRefused root.now)) }
{
    let elems = kids_under(alloc, root, b"switches", b"switch")?;
    list_switches(alloc, &elems)
}

/// The switches that elements say.
fn list_switches(alloc: Global, elems: &[&Elem]) -> Result<Switches, PlaceError>
    ensures read { IfOk result
        (AreRead SaysSwitch id_of (map (λ e. e.now) elems.now)) }
    ensures refused { IfErr result (OrMemory
        (IsFirstRefused SaysSwitch id_of IsBadSwitch (map (λ e. e.now) elems.now))) }
{
    let mut by_id = IndexMap::new(alloc);
    for elem in elems {
        let Some(switch) = next_switch(&by_id, elem) else {
            return Err(PlaceError::BadItem { place: elem.place });
        };
        add(&mut by_id, switch.id, switch.two_way)?;
    }
    Ok(Switches { by_id })
}

/// The switch that an element says, where its id is new.
fn next_switch(by_id: &IndexMap<u32, bool>, elem: &Elem) -> Option<Switch>
    ensures { MatchOption result
        ((s : Switch) → SaysSwitch elem.now s → (w : Bool) × Has by_id.now.entries (s.id, w))
        (λ s. SaysSwitch elem.now s × ((w : Bool) → Has by_id.now.entries (s.id, w) → ⊥)) }
{
    let switch = read_switch(elem)?;
    one_item();
    match find(by_id, switch.id) {
        Some(_) => None,
        None => Some(switch),
    }
}
