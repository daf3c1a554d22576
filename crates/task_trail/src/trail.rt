ghost use Rattle.std.specs.Prelude.{◌≡◌, ◌∷◌, [], ◌<◌, ◌↔◌, Some, IfOk, IsTrue, MatchOption, length};
ghost use Rattle.task_trail.specs.Decided.{IsFree, decided_on, taken_in};
ghost use Rattle.task_types.specs.Decisions.{mode_in, occupant_in, edge_in, entry_in, is_placed};

use pb_expand::{EdgeIx, PbGraph, PbIx, PinIx};
use std::alloc::{AllocError, Global};
use std::marker::Model;
use task_types::{Decision, Occupant, Task};

/// The edge that a pin takes in one mode.
#[derive(Clone, Copy, Debug, PartialEq, Eq)]
pub struct Pick {
    pub mode: u32,
    pub edge: Option<EdgeIx>,
}

/// Decisions in their order, over the instances and pins of a graph and the atoms of a task. It has
/// room for all that can be decided at once, so only `for_task` takes memory. Each call takes a
/// fixed number of steps.
#[derive(Drop)]
pub struct Trail {
    /// The latest last.
    made: Vec<Decision>,
    modes: Vec<Option<u32>>,
    occupants: Vec<Option<Occupant>>,
    picks: Vec<Option<Pick>>,
    entries: Vec<Option<Option<u32>>>,
    placed: Vec<bool>,
}

impl Model for Trail {
    ghost use Rattle.task_trail.specs.Decided.{Decided};

    ghost Value = { Decided };

    ghost use Rattle.task_trail.specs.Tied.{decided_of, IsTied};

    ghost view = { decided_of };

    ghost invariant = { IsTied };
}

impl Trail {
    /// Nothing is decided of the task over the graph.
    pub fn for_task(alloc: Global, graph: &PbGraph, task: &Task) -> Result<Trail, AllocError>
        ensures { IfOk result (λ trail. trail ≡ decided_on [] (length graph.now.instances)
            (length graph.now.pins)
            (length task.now.atoms)) }
    {
        let pbs = graph.pbs() as usize;
        let pins = graph.pins() as usize;
        Ok(Trail {
            made: Vec::with_capacity(alloc, (pbs + pins) * 2)?,
            modes: vec![in alloc; None; pbs]?,
            occupants: vec![in alloc; None; pbs]?,
            picks: vec![in alloc; None; pins]?,
            entries: vec![in alloc; None; pins]?,
            placed: vec![in alloc; false; task.atoms.len()]?,
        })
    }

    /// The mode that was decided for an instance.
    pub fn mode_in(&self, pb: PbIx) -> Option<u32>
        requires { pb.0 < self.now.instances }
        ensures { result ≡ mode_in self.now.made pb.0 }
    {
        self.modes[pb.0 as usize]
    }

    /// Whether an instance was decided to be in that mode.
    pub fn is_in_mode(&self, pb: PbIx, mode: u32) -> bool
        requires { pb.0 < self.now.instances }
        ensures { IsTrue result ↔ (mode_in self.now.made pb.0 ≡ Some mode) }
    {
        match self.mode_in(pb) {
            Some(decided) => decided == mode,
            None => false,
        }
    }

    /// What a leaf was decided to be used for.
    pub fn occupant_in(&self, leaf: PbIx) -> Option<Occupant>
        requires { leaf.0 < self.now.instances }
        ensures { result ≡ occupant_in self.now.made leaf.0 }
    {
        self.occupants[leaf.0 as usize]
    }

    /// The edge that a pin was decided to take in a mode, or that it takes none.
    pub fn edge_in(&self, pin: PinIx, mode: u32) -> Option<Option<EdgeIx>>
        requires { pin.0 < self.now.pins }
        ensures { result ≡ edge_in self.now.made pin.0 mode }
    {
        taken_in(self.picks[pin.0 as usize], mode)
    }

    /// The net that was decided to come in at a pin, or that none does.
    pub fn entry_in(&self, pin: PinIx) -> Option<Option<u32>>
        requires { pin.0 < self.now.pins }
        ensures { result ≡ entry_in self.now.made pin.0 }
    {
        self.entries[pin.0 as usize]
    }

    /// Whether a leaf was decided to be the home of an atom.
    pub fn is_placed(&self, atom: u32) -> bool
        requires { atom < self.now.atoms }
        ensures { result ≡ is_placed self.now.made atom }
    {
        self.placed[atom as usize]
    }

    /// Decides a variable of which nothing is decided.
    pub fn decide(&mut self, decision: Decision)
        requires { IsFree self.old decision }
        ensures { self.new ≡ decided_on (decision ∷ self.old.made) self.old.instances self.old.pins
            self.old.atoms }
    {
        self.made.push_reserved(decision);
        match decision {
            Decision::Mode(pb, mode) => self.modes[pb.0 as usize] = Some(mode),
            Decision::Occupant(leaf, occupant) => {
                self.occupants[leaf.0 as usize] = Some(occupant);
                if let Occupant::Atom(atom) = occupant {
                    self.placed[atom as usize] = true;
                }
            }
            Decision::Edge(pin, mode, edge) => {
                self.picks[pin.0 as usize] = Some(Pick { mode, edge });
            }
            Decision::Entry(pin, net) => self.entries[pin.0 as usize] = Some(net),
        }
    }

    /// Takes the latest decision back; nothing, where there is none.
    pub fn take_back(&mut self) -> Option<Decision>
        ensures { MatchOption result ((self.old.made ≡ []) × (self.new ≡ self.old))
            (λ decision. (self.old ≡ decided_on (decision ∷ self.new.made) self.new.instances
            self.new.pins
            self.new.atoms) × IsFree self.new decision) }
    {
        let decision = self.made.pop()?;
        match decision {
            Decision::Mode(pb, _) => self.modes[pb.0 as usize] = None,
            Decision::Occupant(leaf, occupant) => {
                self.occupants[leaf.0 as usize] = None;
                if let Occupant::Atom(atom) = occupant {
                    self.placed[atom as usize] = false;
                }
            }
            Decision::Edge(pin, _, _) => self.picks[pin.0 as usize] = None,
            Decision::Entry(pin, _) => self.entries[pin.0 as usize] = None,
        }
        Some(decision)
    }
}

/// What a pin takes in a mode.
fn taken_in(pick: Option<Pick>, mode: u32) -> Option<Option<EdgeIx>>
    ensures { result ≡ taken_in pick mode }
{
    match pick {
        Some(pick) if pick.mode == mode => Some(pick.edge),
        _ => None,
    }
}
