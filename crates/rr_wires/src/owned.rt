ghost use Rattle.std.specs.Prelude.{◌≡◌, ◌<◌, ◌≤◌, ◌-◌, ◌^◌, ℕ, length, IfOk, OnOk};
ghost use Rattle.vtr_base.specs.Lists.{Has};
ghost use Rattle.rr_wires.specs.Wires.{AreOwned, Joins};
ghost use Rattle.rr_wires.specs.Steps.{AddsOwned, HasKnownEnds, HaveOneWire};

use crate::numbers::WireNumbers;
use crate::types::{NodeEdge, OwnedEdge, REdge, WirePair};
use indexmap::IndexSet;
use std::alloc::{AllocError, Global};

/// The pairs of wires that the edges join, each owned by its first edge, in the order of these.
pub(crate) fn owned_edges(
    alloc: Global,
    numbers: &WireNumbers,
    edges: &[NodeEdge],
) -> Result<Vec<OwnedEdge>, AllocError>
    requires ends { (e : NodeEdge) → Has edges.now e → HasKnownEnds numbers.now.nodes e }
    requires one { HaveOneWire numbers.now.nodes }
    requires few { length edges.now < 2 ^ 32 - 1 }
    ensures owned { IfOk result (λ owned. AreOwned numbers.now.nodes edges.now owned.items) }
    ensures few { IfOk result (λ owned. length owned.items < 2 ^ 32 - 1) }
{
    let mut pairs = IndexSet::new(alloc);
    let mut owned = Vec::new(alloc);
    for (place, edge) in edges.iter().enumerate() {
        let redge = joined(numbers, *edge);
        let place = place as u32;
        add_owned(&mut pairs, &mut owned, OwnedEdge { redge, place })?;
    }
    Ok(owned)
}

/// Adds an edge that joins a pair of wires, unless the pair is owned already.
fn add_owned(
    pairs: &mut IndexSet<WirePair>,
    owned: &mut Vec<OwnedEdge>,
    edge: OwnedEdge,
) -> Result<(), AllocError>
    ensures { OnOk result
        (AddsOwned pairs.old.keys owned.old.items edge pairs.new.keys owned.new.items) }
{
    let src = edge.redge.src;
    let dst = edge.redge.dst;
    if !pairs.insert(WirePair { src, dst })? {
        return Ok(());
    }
    owned.push(edge)?;
    Ok(())
}

/// An edge with the wires that it joins.
fn joined(numbers: &WireNumbers, edge: NodeEdge) -> REdge
    requires { HasKnownEnds numbers.now.nodes edge }
    ensures { Joins numbers.now.nodes edge result }
{
    let Some(src) = numbers.of_node(edge.src) else {
        unreachable!()
    };
    let Some(dst) = numbers.of_node(edge.dst) else {
        unreachable!()
    };
    REdge {
        src,
        dst,
        src_node: edge.src,
        dst_node: edge.dst,
        switch: edge.switch,
    }
}
