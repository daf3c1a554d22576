ghost use Rattle.std.specs.Prelude.{◌≡◌, ◌≤◌, ◌<◌, ◌↔◌, true, length, IsTrue, IfOk, OnOk, MatchOption};
ghost use Rattle.mode_edges.specs.Pairs.{edge_of, edges_in, with_edge, with_edges, row, rows, side_by_side, given_by, AddsUpTo, SameEnds};
ghost use Rattle.mode_edges.specs.Walks.{pins_left};
ghost use Rattle.std.specs.List.{flat_map};
ghost use Rattle.mode_edges.specs.Readers.{pins_of};

use crate::names::PinGroup;
use crate::pin::{LocalPin, Pair};
use crate::walk::PinWalk;
use arch_types::InterKind;
use indexmap::{IndexMap, IndexSet};
use std::alloc::{AllocError, Global};

/// Adds the edges that an interconnect gives between its input pins and its output pins. A pair of
/// pins that is joined already stays its first owner's. False where there would be more than `most`
/// edges; then only some are added.
pub(crate) fn add_edges(
    alloc: Global,
    found: &mut IndexMap<Pair, u32>,
    kind: InterKind,
    ins: &[PinGroup],
    outs: &[PinGroup],
    inter: u32,
    most: usize,
) -> Result<bool, AllocError>
    ensures { IfOk result (λ all. AddsUpTo most (edges_in found.old) (edges_in found.new)
        (given_by kind inter (flat_map pins_of ins.now) (flat_map pins_of outs.now)) all) }
{
    let ins = PinWalk::new(ins);
    let outs = PinWalk::new(outs);
    match kind {
        InterKind::Direct => add_direct(found, ins, outs, inter, most),
        InterKind::Complete | InterKind::Mux => {
            add_complete(alloc, found, ins, outs, inter, most)
        }
    }
}

/// The n-th input pin to the n-th output pin.
fn add_direct(
    found: &mut IndexMap<Pair, u32>,
    ins: PinWalk<'_>,
    outs: PinWalk<'_>,
    inter: u32,
    most: usize,
) -> Result<bool, AllocError>
    ensures { IfOk result (λ all. AddsUpTo most (edges_in found.old) (edges_in found.new)
        (side_by_side inter (pins_left ins.entry) (pins_left outs.entry)) all) }
{
    let mut sources = ins;
    let mut ends = outs;
    while let Some(src) = sources.next_pin() {
        let Some(dst) = ends.next_pin() else {
            return Ok(true);
        };
        if !add_pair(found, Pair { src, dst }, inter, most)? {
            return Ok(false);
        }
    }
    Ok(true)
}

/// Each input pin to each output pin. Pins that a list names again are passed over.
fn add_complete(
    alloc: Global,
    found: &mut IndexMap<Pair, u32>,
    ins: PinWalk<'_>,
    outs: PinWalk<'_>,
    inter: u32,
    most: usize,
) -> Result<bool, AllocError>
    ensures { IfOk result (λ all. AddsUpTo most (edges_in found.old) (edges_in found.new)
        (rows inter (pins_left ins.entry) (pins_left outs.entry)) all) }
{
    let mut sources = ins;
    let Some(first) = sources.next_pin() else {
        return Ok(true);
    };
    let Some(ends) = add_first(alloc, found, first, outs, inter, most)? else {
        return Ok(false);
    };
    if ends.is_empty() {
        return Ok(true);
    }
    Ok(add_others(alloc, found, first, sources, ends.as_slice(), inter, most)?)
}

/// The first source to each end. The ends, each once, or `None` where there would be more than
/// `most` edges.
fn add_first(
    alloc: Global,
    found: &mut IndexMap<Pair, u32>,
    src: LocalPin,
    outs: PinWalk<'_>,
    inter: u32,
    most: usize,
) -> Result<Option<IndexSet<LocalPin>>, AllocError>
    ensures { IfOk result (λ r. MatchOption r (most < length
        (with_edges (edges_in found.old) (row inter src (pins_left outs.entry))))
        (λ ends. SameEnds ends.keys (pins_left outs.entry) × AddsUpTo most (edges_in found.old)
        (edges_in found.new) (row inter src (pins_left outs.entry)) true)) }
{
    let mut walk = outs;
    let mut ends = IndexSet::new(alloc);
    while let Some(dst) = walk.next_pin() {
        ends.insert(dst)?;
        if !add_pair(found, Pair { src, dst }, inter, most)? {
            return Ok(None);
        }
    }
    Ok(Some(ends))
}

/// The other sources to each end, where those of the first source are there.
fn add_others(
    alloc: Global,
    found: &mut IndexMap<Pair, u32>,
    first: LocalPin,
    ins: PinWalk<'_>,
    ends: &[LocalPin],
    inter: u32,
    most: usize,
) -> Result<bool, AllocError>
    requires { with_edges (edges_in found.old) (row inter first ends.now) ≡ edges_in found.old }
    ensures { IfOk result (λ all. AddsUpTo most (edges_in found.old) (edges_in found.new)
        (rows inter (pins_left ins.entry) ends.now) all) }
{
    let mut sources = ins;
    let mut seen = IndexSet::new(alloc);
    seen.insert(first)?;
    while let Some(src) = sources.next_pin() {
        if seen.insert(src)? && !add_row(found, src, ends, inter, most)? {
            return Ok(false);
        }
    }
    Ok(true)
}

/// One source to each end.
fn add_row(
    found: &mut IndexMap<Pair, u32>,
    src: LocalPin,
    ends: &[LocalPin],
    inter: u32,
    most: usize,
) -> Result<bool, AllocError>
    ensures { IfOk result (λ all. AddsUpTo most (edges_in found.old) (edges_in found.new)
        (row inter src ends.now) all) }
{
    for dst in ends {
        if !add_pair(found, Pair { src, dst: *dst }, inter, most)? {
            return Ok(false);
        }
    }
    Ok(true)
}

/// Adds one edge, unless its pins are joined already. Whether there are `most` edges at most.
fn add_pair(
    found: &mut IndexMap<Pair, u32>,
    pair: Pair,
    inter: u32,
    most: usize,
) -> Result<bool, AllocError>
    ensures added { OnOk result (edges_in found.new ≡ with_edge (edges_in found.old)
        (edge_of pair inter)) }
    ensures few { IfOk result (λ few. IsTrue few ↔ (length (edges_in found.new) ≤ most)) }
{
    add_new(found, pair, inter)?;
    Ok(found.len() <= most)
}

/// Adds one edge, unless its pins are joined already.
fn add_new(found: &mut IndexMap<Pair, u32>, pair: Pair, inter: u32) -> Result<(), AllocError>
    ensures { OnOk result (edges_in found.new ≡ with_edge (edges_in found.old)
        (edge_of pair inter)) }
{
    if found.contains_key(&pair) {
        return Ok(());
    }
    found.insert(pair, inter)?;
    Ok(())
}
