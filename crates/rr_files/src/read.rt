ghost use Rattle.std.specs.Prelude.{◌≡◌, ◌<◌, ◌-◌, ◌^◌, ◌⊎◌, length, IfOk, MatchResult};
ghost use Rattle.vtr_base.specs.Lists.{Has};
ghost use Rattle.rr_edges.specs.declared.kept.FileEdge.{FileEdge as Edge};
ghost use Rattle.rr_wires.specs.Wires.{IsGraphOf, HasWiredEnds};
ghost use Rattle.rr_tables.specs.Layouts.{IsLaidOn};
ghost use Rattle.rr_files.specs.Parts.{carried, node_edge, node_edges};
ghost use Rattle.rr_files.specs.Saying.{SaysGraph, SpellsGraph, SaysLayout};
ghost use Rattle.rr_files.specs.Refusing.{RootFails, LayoutFails, IsRefused};

use crate::error::RrError;
use crate::leaner::without;
use crate::rr::Rr;
use arch_types::Arch;
use elem_attrs::has_tag;
use elem_text::{Elem, read_elems};
use rr_edges::{FileEdge, read_edges};
use rr_grid::read_grid;
use rr_nodes::{Nodes, read_nodes};
use rr_places::{read_switches, read_types};
use rr_tables::{Ends, KnownTypes, Layout, found_kinds, found_pins, types_fit};
use rr_wires::{NodeEdge, Wires, one_wire};
use std::alloc::{AllocError, Global};

/// The routing graph that the bytes of a file say over an architecture's tiles. The elements of the
/// file are let go part by part, as each was read. After a refusal nothing was made.
pub fn read_rr(alloc: Global, bytes: &[u8], arch: &Arch) -> Result<Rr, RrError>
    ensures { MatchResult result (SpellsGraph arch.now.tiles bytes.now)
        (λ e. (e ≡ RrError.OutOfMemory) ⊎ IsRefused arch.now.tiles bytes.now e) }
{
    let root = read_elems(alloc, bytes)?;
    read_root(alloc, root, arch)
}

/// The routing graph that a root element says.
fn read_root(alloc: Global, root: Elem, arch: &Arch) -> Result<Rr, RrError>
    ensures { MatchResult result (SaysGraph arch.now.tiles root)
        (λ e. (e ≡ RrError.OutOfMemory) ⊎ RootFails arch.now.tiles root e) }
{
    if !has_tag(&root, b"rr_graph") {
        return Err(RrError::BadItem { place: root.place });
    }
    let switches = read_switches(alloc, &root)?;
    let layout = read_layout(alloc, &root, arch)?;
    let nodes = read_nodes(alloc, &root, &layout)?;
    let root = without(alloc, root, b"rr_nodes");
    found_pins();
    found_kinds();
    one_wire();
    layout.law();
    let ends = Ends::new(nodes, switches);
    let edges = read_edges(alloc, &root, &ends)?;
    drop(root);
    let nodes = ends.into_nodes();
    let wires = wires_of(alloc, &nodes, edges.kept.as_slice())?;
    wires.law();
    Ok(Rr::of_parts(layout, nodes, edges, wires))
}

/// The layout that a root element says.
fn read_layout(alloc: Global, root: &Elem, arch: &Arch) -> Result<Layout, RrError>
    ensures { MatchResult result
        (λ l. SaysLayout arch.now.tiles root.now l × IsLaidOn arch.now.tiles l)
        (λ e. (e ≡ RrError.OutOfMemory) ⊎ LayoutFails arch.now.tiles root.now e) }
{
    arch.law();
    types_fit();
    let types = KnownTypes {
        types: read_types(alloc, root, arch)?,
    };
    let grid = read_grid(alloc, root, &types)?;
    Ok(Layout::new(alloc, arch.tiles.as_slice(), types.types, grid)?)
}

/// The wires of nodes, and the pairs of wires that edges join. More than 2^32 - 2 edges are told as
/// want of memory.
fn wires_of(alloc: Global, nodes: &Nodes, edges: &[FileEdge]) -> Result<Wires, AllocError>
    requires { (e : Edge) → Has edges.now e → HasWiredEnds (carried nodes.now) (node_edge e) }
    ensures { IfOk result (IsGraphOf (carried nodes.now) (node_edges edges.now)) }
{
    nodes.law();
    let edges = without_features(alloc, edges)?;
    Wires::of_graph(alloc, nodes.carried(), edges.as_slice())
}

/// The edges without their features.
fn without_features(alloc: Global, edges: &[FileEdge]) -> Result<Vec<NodeEdge>, AllocError>
    ensures same { IfOk result (λ list. list.items ≡ node_edges edges.now) }
    ensures few { IfOk result (λ list. length list.items < 2 ^ 32 - 1) }
{
    if edges.len() >= u32::MAX as usize {
        return Err(AllocError);
    }
    let mut list = Vec::with_capacity(alloc, edges.len())?;
    for edge in edges {
        list.push(NodeEdge {
            src: edge.src,
            dst: edge.dst,
            switch: edge.switch,
        })?;
    }
    Ok(list)
}
