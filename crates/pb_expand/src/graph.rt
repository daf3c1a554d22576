ghost use Rattle.std.specs.Prelude.{◌≡◌, ◌≤◌, ◌<◌, ◌^◌, ◌↔◌, ℕ, Some, IsNone, IsSome, IfSome, IfOk, IfErr, MatchOption, length, slice_get};
ghost use Rattle.std.specs.Option.{option_map, option_and_then};
ghost use Rattle.arch_types.specs.Tree.{modes_of, name_of_mode};
ghost use Rattle.arch_types.specs.Address.{child_at};
ghost use Rattle.arch_types.specs.Tree.{inters_of};
ghost use Rattle.mode_edges.specs.declared.pin.LocalPin.{LocalPin};
ghost use Rattle.pb_expand.specs.Graph.{LeadsTo, block_at, mode_at, inter_of, ports_of, kind_of, into_from, pins_of_ports, pin_at, step_from, hop_of, first_address};
ghost use Rattle.pb_expand.specs.Ends.{AreEdgesWith, ListsEnds};
ghost use Rattle.pb_expand.specs.Shapes.{HasPinsFrom};
ghost use Rattle.pb_expand.specs.Kept.{IsKept};
ghost use Rattle.pb_expand.specs.Expansion.{IsExpansion, IsPin, IsLocalPin};
ghost use Rattle.pb_expand.specs.OneOwner.{HasOneOwner};
ghost use Rattle.pb_expand.specs.Types.{modes_in_tree};
ghost use Rattle.pb_expand.specs.Refusals.{AreSound, IsTooLarge, IsRefusal};
ghost use Rattle.arch_types.specs.declared.block.PbType.{PbType};

use crate::copy::copy_block;
use crate::edges::edges_of;
use crate::ends::{edges_before, edges_by_end, edges_by_source};
use crate::faults::check_tree;
use crate::places::places_of;
use crate::shape::{Shape, shapes_of};
use crate::{Edge, EdgeIx, ExpandError, PbIx, PbKind, PinAt, PinIx, Step};
use arch_types::{Arch, Inter, Kind, Mode, PbType, Port};
use flat_tables::FlatTable;
use indexmap::IndexSet;
use mode_edges::LocalPin;
use std::alloc::Global;
use std::marker::Model;

/// A block type with its instances, pins and edges by number. Instances are numbered in preorder,
/// from the root's 0 on; pins by instance, then port, then bit; edges by owner, then mode, then
/// interconnect.
#[derive(Drop)]
pub struct PbGraph {
    block: u32,
    root: PbType,
    /// Row k is how instance k + 1 hangs on its parent.
    rows: IndexSet<Step>,
    pins: IndexSet<PinAt>,
    edges: Vec<Edge>,
    /// The edges into each pin.
    into: FlatTable<EdgeIx>,
    /// The edges out of each pin.
    out_of: FlatTable<EdgeIx>,
    /// For each instance the first one of its pb_type.
    firsts: Vec<PbIx>,
    shapes: Vec<Shape>,
}

impl Model for PbGraph {
    ghost use Rattle.pb_expand.specs.Graph.{Graph};
    ghost use Rattle.arch_types.specs.contracts.block.PbType as tree;
    ghost use Rattle.std.specs.Coded.{codes};

    ghost Value = { Graph };

    ghost coded = { Prim.hlevel (codes, tree.the_row.coded) };

    ghost use Rattle.pb_expand.specs.Tied.{graph_of, IsTied};

    ghost view = { graph_of };

    ghost invariant = { IsTied };
}

impl PbGraph {
    /// What is known of every graph.
    pub fn law(&self)
        ensures { IsExpansion self.now }
    {
        let _ = &self.block;
    }

    /// What every graph keeps besides, for callers' proofs. It does nothing.
    pub fn keeps(&self)
        ensures { IsKept self.now }
    {
        let _ = &self.block;
    }

    /// What `edges_into` lists, for callers' proofs: exactly the edges with that end in that mode,
    /// ascending. It does nothing.
    pub fn lists_ends(&self)
        ensures { ListsEnds self.now }
    {
        let _ = &self.block;
    }

    /// The edges into a pin are all of one instance, for callers' proofs. It does nothing.
    pub fn one_owner(&self)
        ensures { HasOneOwner self.now }
    {
        let _ = &self.block;
    }

    /// The number of the block type in its architecture.
    pub fn block(&self) -> u32
        ensures { result ≡ self.now.block }
    {
        self.block
    }

    /// The block type's tree.
    pub fn root(&self) -> &PbType
        ensures { result.now ≡ self.now.root }
    {
        &self.root
    }

    /// How many instances there are.
    pub fn pbs(&self) -> u32
        ensures { result ≡ length self.now.instances }
    {
        self.rows.len() as u32 + 1
    }

    /// How many pins there are.
    pub fn pins(&self) -> u32
        ensures { result ≡ length self.now.pins }
    {
        self.pins.len() as u32
    }

    /// How many edges there are.
    pub fn edges(&self) -> u32
        ensures { result ≡ length self.now.edges }
    {
        self.edges.len() as u32
    }

    /// How an instance hangs on its parent; nothing for the root.
    pub fn address_of(&self, pb: PbIx) -> Option<Step>
        requires { pb.0 < length self.now.instances }
        ensures root { IsNone result ↔ (pb.0 ≡ 0) }
        ensures step { IfSome result (λ s. LeadsTo self.now.instances s pb.0) }
    {
        if pb.0 == 0 {
            return None;
        }
        self.rows.get_index(pb.0 as usize - 1).copied()
    }

    /// The instance below one by a mode, a child of it and an instance of the child.
    pub fn child_of(&self, pb: PbIx, mode: u32, child: u32, instance: u32) -> Option<PbIx>
        requires { pb.0 < length self.now.instances }
        ensures { MatchOption result ((n : ℕ) → LeadsTo self.now.instances
            (step_from pb.0 mode child instance) n → ⊥)
            (λ n. LeadsTo self.now.instances (step_from pb.0 mode child instance) n.0) }
    {
        let step = Step {
            parent: pb,
            mode,
            child,
            instance,
        };
        let row = place_of_step(&self.rows, step)?;
        Some(PbIx(row as u32 + 1))
    }

    /// The pin of a bit of a port of an instance.
    pub fn pin_of(&self, pb: PbIx, port: u32, bit: u32) -> Option<PinIx>
        requires { pb.0 < length self.now.instances }
        ensures { MatchOption result (IsPin self.now pb.0 port bit → ⊥)
            (λ n. slice_get self.now.pins n.0 ≡ Some (pin_at pb.0 port bit)) }
    {
        let place = place_of_pin(&self.pins, PinAt { pb, port, bit })?;
        Some(PinIx(place as u32))
    }

    /// What a pin is.
    pub fn pin_at(&self, pin: PinIx) -> PinAt
        requires { pin.0 < length self.now.pins }
        ensures is { slice_get self.now.pins pin.0 ≡ Some result }
        ensures inside { result.pb.0 < length self.now.instances }
    {
        self.pins.as_slice()[pin.0 as usize]
    }

    /// What an edge is.
    pub fn edge(&self, edge: EdgeIx) -> Edge
        requires { edge.0 < length self.now.edges }
        ensures is { slice_get self.now.edges edge.0 ≡ Some result }
        ensures src { result.src.0 < length self.now.pins }
        ensures dst { result.dst.0 < length self.now.pins }
        ensures owner { result.owner.0 < length self.now.instances }
    {
        self.edges[edge.0 as usize]
    }

    /// The instance and the mode that have an edge.
    pub fn mode_of_edge(&self, edge: EdgeIx) -> (PbIx, u32)
        requires { edge.0 < length self.now.edges }
        ensures is { IfSome (slice_get self.now.edges edge.0)
            (λ e. (result.0 ≡ e.owner) × (result.1 ≡ e.mode)) }
        ensures inside { result.0.0 < length self.now.instances }
    {
        let Edge { owner, mode, .. } = self.edge(edge);
        (owner, mode)
    }

    /// The edges into a pin, in the modes of their owner in turn.
    pub fn edges_into_pin(&self, pin: PinIx) -> &[EdgeIx]
        requires { pin.0 < length self.now.pins }
        ensures { AreEdgesWith self.now (λ e. e.dst.0 ≡ pin.0) result.now }
    {
        self.into.group(pin.0)
    }

    /// The edges out of a pin.
    pub fn edges_out_of(&self, pin: PinIx) -> &[EdgeIx]
        requires { pin.0 < length self.now.pins }
        ensures { AreEdgesWith self.now (λ e. e.src.0 ≡ pin.0) result.now }
    {
        self.out_of.group(pin.0)
    }

    /// The edges into a pin in one mode of their owner, in the order of all edges.
    pub fn edges_into(&self, pin: PinIx, mode: u32) -> &[EdgeIx]
        requires { pin.0 < length self.now.pins }
        ensures { result.now ≡ into_from 0 self.now.edges pin.0 mode }
    {
        let group = self.into.group(pin.0);
        let start = edges_before(self.edges.as_slice(), group, mode as u64);
        let end = edges_before(self.edges.as_slice(), group, mode as u64 + 1);
        &group[start..end]
    }

    /// The number of a pin of a mode of an instance, as the pin words of the mode name it.
    pub fn pin_of_local(&self, owner: PbIx, mode: u32, pin: LocalPin) -> Option<PinIx>
        requires { owner.0 < length self.now.instances }
        ensures { MatchOption result ((n : ℕ) → IsLocalPin self.now owner.0 mode pin n → ⊥)
            (λ n. IsLocalPin self.now owner.0 mode pin n.0) }
    {
        self.law();
        self.keeps();
        match pin.owner {
            None => self.pin_of(owner, pin.port, pin.bit),
            Some(child) => {
                let pb = self.child_of(owner, mode, child.child, child.instance)?;
                self.pin_of(pb, pin.port, pin.bit)
            }
        }
    }

    /// The pb_type of an instance.
    pub fn block_of(&self, pb: PbIx) -> &PbType
        requires { pb.0 < length self.now.instances }
        ensures is { block_at self.now pb.0 ≡ Some result.now }
        ensures short { length (modes_of result.now.kind) < 2 ^ 32 }
    {
        match self.address_of(pb) {
            None => &self.root,
            Some(step) => child_below(self.block_of(step.parent), step),
        }
    }

    /// The first instance of the same pb_type, which stands for all of them: whoever keeps
    /// something per pb_type keeps it there.
    pub fn first_like(&self, pb: PbIx) -> PbIx
        requires { pb.0 < length self.now.instances }
        ensures first { IfSome (slice_get self.now.instances pb.0)
            (λ a. slice_get self.now.instances result.0 ≡ Some (first_address a)) }
        ensures same { block_at self.now result.0 ≡ block_at self.now pb.0 }
    {
        self.firsts[pb.0 as usize]
    }

    /// What an instance is.
    pub fn kind(&self, pb: PbIx) -> PbKind
        requires { pb.0 < length self.now.instances }
        ensures { option_map (λ block. kind_of block.kind) (block_at self.now pb.0) ≡ Some result }
    {
        self.shapes[pb.0 as usize].kind
    }

    /// How many ports an instance has.
    pub fn port_count(&self, pb: PbIx) -> u32
        requires { pb.0 < length self.now.instances }
        ensures { result ≡ length (ports_of self.now pb.0) }
    {
        self.shapes[pb.0 as usize].ports
    }

    /// How many pins an instance has.
    pub fn pin_count(&self, pb: PbIx) -> u32
        requires { pb.0 < length self.now.instances }
        ensures { result ≡ length (pins_of_ports pb.0 0 (ports_of self.now pb.0)) }
    {
        self.shapes[pb.0 as usize].pins
    }

    /// Where the pins of an instance begin: they stand together, port by port.
    pub fn first_pin(&self, pb: PbIx) -> PinIx
        requires { pb.0 < length self.now.instances }
        ensures { HasPinsFrom self.now pb.0 result.0 }
    {
        self.shapes[pb.0 as usize].first_pin
    }

    /// The interconnect that gives an edge.
    pub fn inter_of(&self, edge: EdgeIx) -> &Inter
        requires { edge.0 < length self.now.edges }
        ensures { IfSome (slice_get self.now.edges edge.0)
            (λ e. inter_of self.now e ≡ Some result.now) }
    {
        self.law();
        let Edge {
            owner,
            mode,
            inter,
            ..
        } = self.edge(edge);
        inter_at(self.block_of(owner), mode, inter)
    }

    /// The ports of an instance.
    pub fn ports(&self, pb: PbIx) -> &[Port]
        requires { pb.0 < length self.now.instances }
        ensures { option_map (λ block. block.ports) (block_at self.now pb.0) ≡ Some result.now }
    {
        self.block_of(pb).ports.as_slice()
    }

    /// The name of the pb_type of an instance.
    pub fn pb_name(&self, pb: PbIx) -> &str
        requires { pb.0 < length self.now.instances }
        ensures { option_map (λ block. block.name) (block_at self.now pb.0) ≡ Some result.now }
    {
        self.block_of(pb).name.as_str()
    }

    /// The name of a mode of an instance.
    pub fn mode_name(&self, pb: PbIx, mode: u32) -> &str
        requires there { pb.0 < length self.now.instances }
        requires mode { IsSome (mode_at self.now pb.0 mode) }
        ensures { option_map name_of_mode (mode_at self.now pb.0 mode) ≡ Some result.now }
    {
        match &self.block_of(pb).kind {
            Kind::InPad | Kind::OutPad | Kind::Lut | Kind::Latch | Kind::Cell(_) => "",
            Kind::Modes(modes) => modes.as_slice()[mode as usize].name.as_str(),
        }
    }
}

/// A block type of an architecture as a graph. A faulty interconnect is told before a block type
/// that is too large, and the first of several.
pub fn expand(alloc: Global, arch: &Arch, block: u32) -> Result<PbGraph, ExpandError>
    requires { block < length arch.now.blocks }
    ensures block { IfOk result (λ g. g.block ≡ block) }
    ensures root { IfOk result (λ g. slice_get arch.now.blocks block ≡ Some g.root) }
    ensures sound { IfOk result (λ g. AreSound (modes_in_tree g.root)) }
    ensures fits { IfOk result (λ g. IsTooLarge g.root → ⊥) }
    ensures refused { IfErr result (λ e. (root : PbType) → slice_get arch.now.blocks block ≡ Some
        root → IsRefusal root e) }
{
    graph_of(alloc, &arch.blocks.as_slice()[block as usize], block)
}

/// A block type as a graph, which has this number in its architecture. What is told of one that
/// isn't expanded is as for `expand`.
pub fn graph_of(alloc: Global, root: &PbType, block: u32) -> Result<PbGraph, ExpandError>
    ensures block { IfOk result (λ g. g.block ≡ block) }
    ensures root { IfOk result (λ g. g.root ≡ root.now) }
    ensures sound { IfOk result (λ g. AreSound (modes_in_tree g.root)) }
    ensures fits { IfOk result (λ g. IsTooLarge g.root → ⊥) }
    ensures refused { IfErr result (IsRefusal root.now) }
{
    let copy = copy_block(alloc, root)?;
    check_tree(alloc, &copy)?;
    let places = places_of(alloc, &copy)?;
    let edges = edges_of(alloc, &places)?;
    let count = places.pins.len() as u32;
    let into = edges_by_end(alloc, edges.as_slice(), count)?;
    let out_of = edges_by_source(alloc, edges.as_slice(), count)?;
    let (rows, pins, firsts, shapes) = places.into_parts();
    Ok(PbGraph {
        block,
        root: copy,
        rows,
        pins,
        edges,
        into,
        out_of,
        firsts,
        shapes,
    })
}

/// The row that is this step.
pub(crate) fn place_of_step(rows: &IndexSet<Step>, step: Step) -> Option<usize>
    ensures { MatchOption result ((k : ℕ) → slice_get rows.now.keys k ≡ Some step → ⊥)
        (λ k. slice_get rows.now.keys k ≡ Some step) }
{
    rows.get_index_of(&step)
}

/// The place of this pin.
pub(crate) fn place_of_pin(pins: &IndexSet<PinAt>, pin: PinAt) -> Option<usize>
    ensures { MatchOption result ((k : ℕ) → slice_get pins.now.keys k ≡ Some pin → ⊥)
        (λ k. slice_get pins.now.keys k ≡ Some pin) }
{
    pins.get_index_of(&pin)
}

/// The child of a block to which a step leads.
pub(crate) fn child_below(block: &PbType, step: Step) -> &PbType
    requires { IsSome (child_at block.now (hop_of step)) }
    ensures { child_at block.now (hop_of step) ≡ Some result.now }
{
    match &block.kind {
        Kind::InPad | Kind::OutPad | Kind::Lut | Kind::Latch | Kind::Cell(_) => block,
        Kind::Modes(modes) => {
            let mode: &Mode = &modes.as_slice()[step.mode as usize];
            &mode.kids.as_slice()[step.child as usize]
        }
    }
}

/// An interconnect of a mode of a block.
fn inter_at(block: &PbType, mode: u32, inter: u32) -> &Inter
    requires { IsSome (option_and_then (λ m. slice_get (inters_of m) inter)
        (slice_get (modes_of block.now.kind) mode)) }
    ensures { option_and_then (λ m. slice_get (inters_of m) inter)
        (slice_get (modes_of block.now.kind) mode) ≡ Some result.now }
{
    let mode: &Mode = &modes_in(block)[mode as usize];
    &mode.inters.as_slice()[inter as usize]
}

/// The modes of a pb_type; a leaf has none.
pub(crate) fn modes_in(block: &PbType) -> &[Mode]
    ensures { result.now ≡ modes_of block.now.kind }
{
    match &block.kind {
        Kind::InPad | Kind::OutPad | Kind::Lut | Kind::Latch | Kind::Cell(_) => &[],
        Kind::Modes(modes) => modes.as_slice(),
    }
}
