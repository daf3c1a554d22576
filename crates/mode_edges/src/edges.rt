ghost use Rattle.std.specs.Prelude.{◌≡◌, ◌≤◌, ◌<◌, Some, length, slice_get, IfOk, MatchOption};
ghost use Rattle.arch_types.specs.Tree.{inters_of};
ghost use Rattle.mode_edges.specs.Edges.{AreEdges, HasMoreEdges};
ghost use Rattle.mode_edges.specs.Faults.{IsFaultless, IsSoundMode};
ghost use Rattle.mode_edges.specs.Pairs.{edges_in};
ghost use Rattle.mode_edges.specs.Gathered.{AddsInter};

use crate::found::add_edges;
use crate::groups::groups;
use crate::index::place_number;
use crate::names::ModeNames;
use crate::pin::{EdgeEnd, LocalEdge, Pair};
use arch_types::Inter;
use indexmap::IndexMap;
use std::alloc::{AllocError, Global};

impl<'n, 'a> ModeNames<'n, 'a> {
    /// The edges of the mode: the pairs of pins that its interconnects give, each owned by the
    /// first interconnect that gives it (VTR architecture reference, "Interconnect"). `None` where
    /// there are more than `most`, which is known before many more are made.
    pub fn edges(&self, alloc: Global, most: usize) -> Result<Option<Vec<LocalEdge>>, AllocError>
        requires { IsSoundMode self.now.block self.now.mode }
        ensures { IfOk result (λ r. MatchOption r (HasMoreEdges self.now.block self.now.mode most)
            (λ edges. AreEdges self.now.block self.now.mode edges.items
            × (length edges.items ≤ most))) }
    {
        let mut found = IndexMap::new(alloc);
        for (place, inter) in self.mode().inters.as_slice().iter().enumerate() {
            let number = place_number(place)?;
            if !add_inter(alloc, &mut found, self, inter, number, most)? {
                return Ok(None);
            }
        }
        Ok(Some(edges_found(alloc, &found)?))
    }
}

/// Adds the edges that one interconnect gives and that weren't there. False where there would be
/// more than `most`.
fn add_inter(
    alloc: Global,
    found: &mut IndexMap<Pair, u32>,
    names: &ModeNames<'_, '_>,
    inter: &Inter,
    number: u32,
    most: usize,
) -> Result<bool, AllocError>
    requires { IsFaultless names.now.block names.now.mode inter.now }
    ensures { IfOk result (λ all. AddsInter names.now.block names.now.mode inter.now number most
        (edges_in found.old) (edges_in found.new) all) }
{
    let Some(ins) = groups(alloc, names, EdgeEnd::Source, inter.input.as_bytes())? else {
        unreachable!()
    };
    let Some(outs) = groups(alloc, names, EdgeEnd::End, inter.output.as_bytes())? else {
        unreachable!()
    };
    Ok(add_edges(
        alloc,
        found,
        inter.kind,
        ins.as_slice(),
        outs.as_slice(),
        number,
        most,
    )?)
}

/// The edges of pairs with their owners, in the order in which the pairs came.
fn edges_found(alloc: Global, found: &IndexMap<Pair, u32>) -> Result<Vec<LocalEdge>, AllocError>
    ensures { IfOk result (λ edges. edges.items ≡ edges_in found.now) }
{
    found
        .iter()
        .map(|(pair, inter)| LocalEdge {
            src: pair.src,
            dst: pair.dst,
            inter: *inter,
        })
        .collect(alloc)
}
