ghost use Rattle.std.specs.Prelude.{◌≡◌, ◌≤◌, ◌<◌, ◌∷◌, [], Some, slice_get, MatchOption, MatchBool};
ghost use Rattle.std.specs.List.{flat_map};
ghost use Rattle.mode_edges.specs.Readers.{pins_of};
ghost use Rattle.mode_edges.specs.Walks.{pins_left, GoesOn};

use crate::names::{Instances, Members, PinGroup, PortBits};
use crate::pin::{ChildAt, LocalPin};

/// A walk over the pins of groups: group by group, of each instance by instance, and of each of
/// these bit by bit. It lists none of them.
#[derive(Drop)]
pub struct PinWalk<'a> {
    groups: &'a [PinGroup],
    /// The group that comes after this one.
    next: usize,
    /// The instances of this group that come after this one.
    instances: Instances,
    /// The bits of each instance of this group.
    bits: PortBits,
    owner: Option<ChildAt>,
    /// The bits of this instance that are left.
    row: Members,
}

impl<'a> PinWalk<'a> {
    pub(crate) fn new(groups: &'a [PinGroup]) -> PinWalk<'a>
        ensures { pins_left result ≡ flat_map pins_of groups.now }
    {
        let none = Members { low: 0, end: 0 };
        PinWalk {
            groups,
            next: 0,
            instances: Instances {
                child: 0,
                members: none,
            },
            bits: PortBits {
                port: 0,
                bits: none,
            },
            owner: None,
            row: none,
        }
    }

    /// The next pin.
    pub(crate) fn next_pin(&mut self) -> Option<LocalPin>
        ensures { MatchOption result (pins_left self.old ≡ [])
            (λ p. pins_left self.old ≡ p ∷ pins_left self.new) }
    {
        if self.find_row() {
            Some(self.take_pin())
        } else {
            None
        }
    }

    /// Goes on to a row that has pins left.
    fn find_row(&mut self) -> bool
        ensures { MatchBool result ((pins_left self.new ≡ pins_left self.old)
            × (self.new.row.low < self.new.row.end)) (pins_left self.old ≡ []) }
    {
        while self.row.low >= self.row.end {
            if !self.next_row() {
                return false;
            }
        }
        true
    }

    /// The first pin of the row.
    fn take_pin(&mut self) -> LocalPin
        requires { self.old.row.low < self.old.row.end }
        ensures { pins_left self.old ≡ result ∷ pins_left self.new }
    {
        let bit = self.row.low;
        self.row.low = bit + 1;
        LocalPin {
            owner: self.owner,
            port: self.bits.port,
            bit,
        }
    }

    /// Goes on to the next row, where this one is done.
    fn next_row(&mut self) -> bool
        requires { self.old.row.end ≤ self.old.row.low }
        ensures { MatchBool result (GoesOn self.old self.new) (pins_left self.old ≡ []) }
    {
        if self.instances.members.low < self.instances.members.end {
            self.enter_instance();
            return true;
        }
        match self.groups.get(self.next) {
            None => false,
            Some(group) => {
                self.enter_group(*group);
                true
            }
        }
    }

    /// Goes into the next instance of this group.
    fn enter_instance(&mut self)
        requires done { self.old.row.end ≤ self.old.row.low }
        requires more { self.old.instances.members.low < self.old.instances.members.end }
        ensures { GoesOn self.old self.new }
    {
        let instance = self.instances.members.low;
        self.owner = Some(ChildAt {
            child: self.instances.child,
            instance,
        });
        self.row = self.bits.bits;
        self.instances.members.low = instance + 1;
    }

    /// Goes into the next group.
    fn enter_group(&mut self, group: PinGroup)
        requires done { self.old.row.end ≤ self.old.row.low }
        requires last { self.old.instances.members.end ≤ self.old.instances.members.low }
        requires next { slice_get self.old.groups.now self.old.next ≡ Some group }
        ensures { GoesOn self.old self.new }
    {
        let none = Members { low: 0, end: 0 };
        self.next += 1;
        self.bits = group.bits;
        match group.of {
            None => {
                self.owner = None;
                self.row = group.bits.bits;
                self.instances.members = none;
            }
            Some(of) => {
                self.row = none;
                self.instances = of;
            }
        }
    }
}
