ghost use Rattle.std.specs.Prelude.{◌≡◌, ◌↔◌, ℕ, Some, IsTrue, OnOk, OnErr, IfOk, MatchOption, true};
ghost use Rattle.std.specs.Option.{option_map};
ghost use Rattle.prog_map.specs.Choices.{no_choices, mode_of, pick_of, is_used, lut_of, with_mode, with_pick, with_used, with_lut, IsProgOf, IsModeOf, IsEdgeInto, IsLutChoice};
ghost use Rattle.prog_map.specs.Leaves.{IsLeaf};
ghost use Rattle.pb_expand.specs.Graph.{Graph};
ghost use Rattle.prog_map.specs.Sites.{HasChoice, with_setting};

use crate::setting::Setting;
use crate::{LSite, LutChoice};
use pb_expand::{EdgeIx, PbGraph, PbIx, PinIx};
use std::alloc::{AllocError, Global};
use std::collections::{BTreeMap, BTreeSet};
use std::marker::Model;

/// A programming of one block type: a finite map from its sites to choices. A site is the mode of
/// an instance, a pin in one mode, whose choice is an edge into it, the use of a leaf, or what a
/// LUT holds; a site without a choice is off.
#[derive(Drop)]
pub struct Prog {
    modes: BTreeMap<u32, u32>,
    picks: BTreeMap<(u32, u32), u32>,
    leaves: BTreeSet<u32>,
    luts: BTreeMap<u32, LutChoice>,
}

impl Model for Prog {
    ghost use Rattle.prog_map.specs.Choices.{Choices, choices_code};

    ghost Value = { Choices };

    ghost coded = { choices_code };

    ghost use Rattle.prog_map.specs.Stored.{choices_of};

    ghost view = { choices_of };
}

impl Prog {
    /// The programming of the graph in which every site is off.
    pub fn empty(alloc: Global, graph: &PbGraph) -> Result<Prog, AllocError>
        ensures off { IfOk result (λ p. p ≡ no_choices) }
        ensures of { IfOk result (λ p. IsProgOf graph.now p) }
    {
        let _graph = graph;
        Ok(Prog {
            modes: BTreeMap::new(alloc),
            picks: BTreeMap::new(alloc),
            leaves: BTreeSet::new(alloc),
            luts: BTreeMap::new(alloc),
        })
    }

    /// The mode to which an instance is set.
    pub fn mode_of(&self, pb: PbIx) -> Option<u32>
        ensures { result ≡ mode_of self.now pb.0 }
    {
        self.modes.get(&pb.0).copied()
    }

    /// Whether an instance is set to this mode.
    pub(crate) fn is_set_to(&self, pb: PbIx, mode: u32) -> bool
        ensures { IsTrue result ↔ (mode_of self.now pb.0 ≡ Some mode) }
    {
        match self.mode_of(pb) {
            Some(chosen) => chosen == mode,
            None => false,
        }
    }

    /// The edge that a pin takes in a mode.
    pub fn edge_of(&self, pin: PinIx, mode: u32) -> Option<EdgeIx>
        ensures { option_map (λ edge. edge.0) result ≡ pick_of self.now pin.0 mode }
    {
        match self.picks.get(&(pin.0, mode)) {
            Some(edge) => Some(EdgeIx(*edge)),
            None => None,
        }
    }

    /// Whether a leaf is used.
    pub fn used(&self, pb: PbIx) -> bool
        ensures { result ≡ is_used self.now pb.0 }
    {
        self.leaves.contains(&pb.0)
    }

    /// What a LUT holds.
    pub fn lut(&self, pb: PbIx) -> Option<&LutChoice>
        ensures { option_map (λ choice. choice.now) result ≡ lut_of self.now pb.0 }
    {
        self.luts.get(&pb.0)
    }

    /// Whether a site has a choice.
    pub fn is_set(&self, site: LSite) -> bool
        ensures { IsTrue result ↔ HasChoice self.now site }
    {
        match site {
            LSite::Mode(pb) => self.mode_of(pb).is_some(),
            LSite::Pin(pin, mode) => self.edge_of(pin, mode).is_some(),
            LSite::Used(pb) => self.used(pb),
            LSite::Lut(pb) => self.lut(pb).is_some(),
        }
    }

    /// The same programming once more, in memory of the same allocator.
    pub fn copy(&self) -> Result<Prog, AllocError>
        ensures { IfOk result (λ p. p ≡ self.now) }
    {
        Ok(Prog {
            modes: self.modes.clone()?,
            picks: self.picks.clone()?,
            leaves: self.leaves.clone()?,
            luts: self.luts.clone()?,
        })
    }

    /// Sets an instance to a mode. A programming of a graph stays one where the graph has the mode.
    pub fn set_mode(&mut self, pb: PbIx, mode: u32) -> Result<(), AllocError>
        ensures ok { OnOk result (self.new ≡ with_mode self.old pb.0 mode) }
        ensures of { (g : Graph) → IsProgOf g self.old → IsModeOf g pb.0 mode → IsProgOf g
            self.new }
        ensures err { OnErr result (self.new ≡ self.old) }
    {
        self.modes.insert(pb.0, mode)?;
        Ok(())
    }

    /// Lets a pin take an edge in a mode. A programming of a graph stays one where the edge leads
    /// into the pin in that mode.
    pub fn set_edge(&mut self, pin: PinIx, mode: u32, edge: EdgeIx) -> Result<(), AllocError>
        ensures ok { OnOk result (self.new ≡ with_pick self.old pin.0 mode edge.0) }
        ensures of { (g : Graph) → IsProgOf g self.old → IsEdgeInto g pin.0 mode edge.0 → IsProgOf g
            self.new }
        ensures err { OnErr result (self.new ≡ self.old) }
    {
        self.picks.insert((pin.0, mode), edge.0)?;
        Ok(())
    }

    /// Uses a leaf. A programming of a graph stays one where the instance is a leaf.
    pub fn set_used(&mut self, pb: PbIx) -> Result<(), AllocError>
        ensures ok { OnOk result (self.new ≡ with_used self.old pb.0) }
        ensures of { (g : Graph) → IsProgOf g self.old → IsLeaf g pb.0 → IsProgOf g self.new }
        ensures err { OnErr result (self.new ≡ self.old) }
    {
        self.leaves.insert(pb.0)?;
        Ok(())
    }

    /// Lets a LUT hold a choice. A programming of a graph stays one where the choice is one of the
    /// LUT.
    pub fn set_lut(&mut self, pb: PbIx, choice: LutChoice) -> Result<(), AllocError>
        ensures ok { OnOk result (self.new ≡ with_lut self.old pb.0 choice) }
        ensures of { (g : Graph) → IsProgOf g self.old → IsLutChoice g pb.0 choice → IsProgOf g
            self.new }
        ensures err { OnErr result (self.new ≡ self.old) }
    {
        self.luts.insert(pb.0, choice)?;
        Ok(())
    }

    /// Sets a site to its choice.
    pub fn set(&mut self, setting: Setting) -> Result<(), AllocError>
        ensures ok { OnOk result (self.new ≡ with_setting self.old setting) }
        ensures err { OnErr result (self.new ≡ self.old) }
    {
        match setting {
            Setting::Mode(pb, mode) => self.set_mode(pb, mode),
            Setting::Pick(pin, mode, edge) => self.set_edge(pin, mode, edge),
            Setting::Used(pb) => self.set_used(pb),
            Setting::Lut(pb, choice) => self.set_lut(pb, choice),
        }
    }
}
