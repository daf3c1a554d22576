ghost use Rattle.std.specs.Prelude.{◌≡◌, ◌<◌, ◌+◌, ℕ, IfOk, OnOk, MatchOption, length};
ghost use Rattle.prog_text.specs.Plain.{HasPlainNames};
ghost use Rattle.prog_text.specs.Names.{NamesMode, NamesChild, NamesPort};
ghost use Rattle.prog_text.specs.Table.{AreNamesOf, AreNamesUpTo, HasNames};

use crate::block::BlockNames;
use pb_expand::{PbGraph, PbIx};
use std::alloc::{AllocError, Global};

/// The names in a graph, by which instances, pins, modes, children and ports are found. Instances
/// of one pb_type share their tables.
#[derive(Drop)]
pub struct GraphNames {
    /// For each instance the place of its tables.
    places: Vec<u32>,
    blocks: Vec<BlockNames>,
}

impl GraphNames {
    /// Makes the tables: for each pb_type an entry for each mode, child and port.
    pub fn new(alloc: Global, graph: &PbGraph) -> Result<GraphNames, AllocError>
        requires { HasPlainNames graph.now.root }
        ensures { IfOk result (AreNamesOf graph.now) }
    {
        graph.law();
        let mut names = GraphNames {
            places: Vec::new(alloc),
            blocks: Vec::new(alloc),
        };
        for pb in 0..graph.pbs() {
            names.push(alloc, graph, PbIx(pb))?;
        }
        Ok(names)
    }

    /// Says which tables are the next instance's, and adds them where no instance before has them.
    fn push(&mut self, alloc: Global, graph: &PbGraph, pb: PbIx) -> Result<(), AllocError>
        requires there { pb.0 < length graph.now.instances }
        requires before { AreNamesUpTo graph.now pb.0 self.old }
        ensures { OnOk result (AreNamesUpTo graph.now (pb.0 + 1) self.new) }
    {
        graph.law();
        let _step = graph.address_of(pb);
        let first = graph.first_like(pb);
        if first.0 < pb.0 {
            let place = self.places[first.0 as usize];
            self.places.push(place)?;
            return Ok(());
        }
        let names = BlockNames::new(alloc, graph.block_of(pb))?;
        let place = self.blocks.len() as u32;
        self.blocks.push(names)?;
        self.places.push(place)?;
        Ok(())
    }

    /// The tables of an instance.
    fn of(&self, graph: &PbGraph, pb: PbIx) -> &BlockNames
        requires there { pb.0 < length graph.now.instances }
        requires of { AreNamesOf graph.now self.now }
        ensures { HasNames graph.now pb.0 result.now }
    {
        let _graph = graph;
        &self.blocks[self.places[pb.0 as usize] as usize]
    }

    /// The mode of an instance that has this name.
    pub fn mode(&self, graph: &PbGraph, pb: PbIx, name: &[u8]) -> Option<u32>
        requires there { pb.0 < length graph.now.instances }
        requires of { AreNamesOf graph.now self.now }
        ensures { MatchOption result ((mode : ℕ) → NamesMode graph.now pb.0 name.now mode → ⊥)
            (λ mode. NamesMode graph.now pb.0 name.now mode) }
    {
        self.of(graph, pb).modes.get(name)
    }

    /// The child in a mode of an instance that has this name.
    pub fn child(&self, graph: &PbGraph, pb: PbIx, mode: u32, name: &[u8]) -> Option<u32>
        requires there { pb.0 < length graph.now.instances }
        requires of { AreNamesOf graph.now self.now }
        ensures { MatchOption result ((child : ℕ) → NamesChild graph.now pb.0 mode name.now child
            → ⊥) (λ child. NamesChild graph.now pb.0 mode name.now child) }
    {
        let names = self.of(graph, pb);
        if mode as usize >= names.kids.len() {
            return None;
        }
        let children = &names.kids[mode as usize];
        children.get(name)
    }

    /// The port of an instance that has this name.
    pub fn port(&self, graph: &PbGraph, pb: PbIx, name: &[u8]) -> Option<u32>
        requires there { pb.0 < length graph.now.instances }
        requires of { AreNamesOf graph.now self.now }
        ensures { MatchOption result ((port : ℕ) → NamesPort graph.now pb.0 name.now port → ⊥)
            (λ port. NamesPort graph.now pb.0 name.now port) }
    {
        self.of(graph, pb).ports.get(name)
    }
}
