ghost use Rattle.std.specs.Prelude.{◌≡◌, ◌≤◌, ◌<◌, ◌+◌, ℕ, Some, IfOk, OnOk, IsErrOf, map, length, slice_get};
ghost use Rattle.arch_types.specs.Address.{Address};
ghost use Rattle.mode_edges.specs.Edges.{AreEdges, HasMoreEdges};
ghost use Rattle.mode_edges.specs.Faults.{IsSoundMode};
ghost use Rattle.pb_expand.specs.Graph.{pin_at};
ghost use Rattle.pb_expand.specs.Rows.{addresses, IsTree};
ghost use Rattle.pb_expand.specs.Making.{AreBefore, AddsPlaced, Stands, StandFor, AreParts, AreMore, HaveModeEdges, AreModeEdgesOf, Keeps, HavePlaces, HasPlace, IsOwner};
ghost use Rattle.pb_expand.specs.declared.error.SizeError.{SizeError};

use crate::error::SizeError;
use crate::graph::{modes_in, place_of_pin, place_of_step};
use crate::places::GraphRows;
use crate::{Edge, PbIx, PinAt, PinIx, Step};
use arch_types::{Mode, PbType};
use indexmap::IndexSet;
use mode_edges::{ChildAt, LocalEdge, LocalPin, ModeNames, PortNames};
use std::alloc::{AllocError, Global};

const MOST_EDGES: usize = 4194304;

/// The edges of a mode that has some, kept for all instances of its pb_type.
#[derive(Drop)]
struct ModeEdges {
    mode: u32,
    edges: Vec<LocalEdge>,
}

/// The edges of all instances in all their modes.
pub(crate) fn edges_of(alloc: Global, places: &GraphRows) -> Result<Vec<Edge>, SizeError>
    requires parts { AreParts (map (λ b. b.now) places.now.blocks.items) places.now.rows.keys
        places.now.pins.keys }
    requires firsts { StandFor (map (λ b. b.now) places.now.blocks.items) places.now.firsts.items }
    requires all_firsts { length places.now.firsts.items ≡ length places.now.blocks.items }
    ensures edges { IfOk result (λ es. AreBefore (map (λ b. b.now) places.now.blocks.items)
        (addresses places.now.rows.keys) places.now.pins.keys (length places.now.blocks.items) 0
        es.items) }
    ensures few { IfOk result (λ es. length es.items ≤ 4194304) }
    ensures many { IsErrOf result SizeError.TooMany → AreMore
        (map (λ b. b.now) places.now.blocks.items) (addresses places.now.rows.keys)
        places.now.pins.keys 4194304 }
{
    let mut edges = Vec::new(alloc);
    let mut lists = Vec::new(alloc);
    for owner in 0..places.blocks.len() {
        let made = push_owner(
            alloc,
            &mut edges,
            places,
            lists.as_slice(),
            PbIx(owner as u32),
        )?;
        lists.push(made)?;
    }
    Ok(edges)
}

/// Adds the edges of an instance in all its modes. The edges of a mode are found once for all
/// instances of a pb_type: at the first one, which is given them back.
fn push_owner(
    alloc: Global,
    edges: &mut Vec<Edge>,
    places: &GraphRows,
    lists: &[Vec<ModeEdges>],
    owner: PbIx,
) -> Result<Vec<ModeEdges>, SizeError>
    requires parts { AreParts (map (λ b. b.now) places.now.blocks.items) places.now.rows.keys
        places.now.pins.keys }
    requires firsts { StandFor (map (λ b. b.now) places.now.blocks.items) places.now.firsts.items }
    requires all_firsts { length places.now.firsts.items ≡ length places.now.blocks.items }
    requires there { owner.0 < length places.now.blocks.items }
    requires before { AreBefore (map (λ b. b.now) places.now.blocks.items)
        (addresses places.now.rows.keys) places.now.pins.keys owner.0 0 edges.old.items }
    requires few { length edges.old.items ≤ 4194304 }
    requires lists { HaveModeEdges (map (λ b. b.now) places.now.blocks.items)
        places.now.firsts.items lists.now }
    requires all_lists { length lists.now ≡ owner.0 }
    ensures edges { OnOk result (AreBefore (map (λ b. b.now) places.now.blocks.items)
        (addresses places.now.rows.keys) places.now.pins.keys (owner.0 + 1) 0 edges.new.items) }
    ensures few { OnOk result (length edges.new.items ≤ 4194304) }
    ensures made { IfOk result (λ made. slice_get places.now.firsts.items owner.0 ≡ Some owner
        → AreModeEdgesOf (map (λ b. b.now) places.now.blocks.items) owner.0 made.items) }
    ensures many { IsErrOf result SizeError.TooMany → AreMore
        (map (λ b. b.now) places.now.blocks.items) (addresses places.now.rows.keys)
        places.now.pins.keys 4194304 }
{
    let first = places.firsts[owner.0 as usize];
    if first.0 >= owner.0 {
        return push_new(alloc, edges, places, owner);
    }
    push_known(edges, places, owner, lists[first.0 as usize].as_slice())?;
    Ok(Vec::new(alloc))
}

/// Adds the edges of an instance in all its modes, and gives back those of each mode that has some.
fn push_new(
    alloc: Global,
    edges: &mut Vec<Edge>,
    places: &GraphRows,
    owner: PbIx,
) -> Result<Vec<ModeEdges>, SizeError>
    requires parts { AreParts (map (λ b. b.now) places.now.blocks.items) places.now.rows.keys
        places.now.pins.keys }
    requires there { owner.0 < length places.now.blocks.items }
    requires before { AreBefore (map (λ b. b.now) places.now.blocks.items)
        (addresses places.now.rows.keys) places.now.pins.keys owner.0 0 edges.old.items }
    requires few { length edges.old.items ≤ 4194304 }
    ensures edges { OnOk result (AreBefore (map (λ b. b.now) places.now.blocks.items)
        (addresses places.now.rows.keys) places.now.pins.keys (owner.0 + 1) 0 edges.new.items) }
    ensures few { OnOk result (length edges.new.items ≤ 4194304) }
    ensures made { IfOk result (λ made. AreModeEdgesOf (map (λ b. b.now) places.now.blocks.items)
        owner.0 made.items) }
    ensures many { IsErrOf result SizeError.TooMany → AreMore
        (map (λ b. b.now) places.now.blocks.items) (addresses places.now.rows.keys)
        places.now.pins.keys 4194304 }
{
    let block: &PbType = places.blocks[owner.0 as usize];
    let ports = PortNames::new(alloc, block)?;
    let mut kept = Vec::new(alloc);
    for (mode, is) in modes_in(block).iter().enumerate() {
        let number = mode as u32;
        let local = local_edges(alloc, &ports, is, MOST_EDGES - edges.len())?;
        push_local(edges, places, owner, number, local.as_slice())?;
        keep(&mut kept, number, local)?;
    }
    Ok(kept)
}

/// Keeps the edges of one more mode, where it has some.
fn keep(kept: &mut Vec<ModeEdges>, mode: u32, edges: Vec<LocalEdge>) -> Result<(), AllocError>
    ensures { OnOk result (Keeps kept.old.items mode edges kept.new.items) }
{
    if edges.is_empty() {
        return Ok(());
    }
    kept.push(ModeEdges { mode, edges })?;
    Ok(())
}

/// Adds the edges of an instance in all its modes, where those of each mode that has some are
/// known.
fn push_known(
    edges: &mut Vec<Edge>,
    places: &GraphRows,
    owner: PbIx,
    kept: &[ModeEdges],
) -> Result<(), SizeError>
    requires parts { AreParts (map (λ b. b.now) places.now.blocks.items) places.now.rows.keys
        places.now.pins.keys }
    requires there { owner.0 < length places.now.blocks.items }
    requires before { AreBefore (map (λ b. b.now) places.now.blocks.items)
        (addresses places.now.rows.keys) places.now.pins.keys owner.0 0 edges.old.items }
    requires few { length edges.old.items ≤ 4194304 }
    requires kept { AreModeEdgesOf (map (λ b. b.now) places.now.blocks.items) owner.0 kept.now }
    ensures edges { OnOk result (AreBefore (map (λ b. b.now) places.now.blocks.items)
        (addresses places.now.rows.keys) places.now.pins.keys (owner.0 + 1) 0 edges.new.items) }
    ensures few { OnOk result (length edges.new.items ≤ 4194304) }
    ensures many { IsErrOf result SizeError.TooMany → AreMore
        (map (λ b. b.now) places.now.blocks.items) (addresses places.now.rows.keys)
        places.now.pins.keys 4194304 }
{
    for known in kept {
        if known.edges.len() > MOST_EDGES - edges.len() {
            return Err(SizeError::TooMany);
        }
        push_local(edges, places, owner, known.mode, known.edges.as_slice())?;
    }
    Ok(())
}

/// The edges of a mode of the pb_type whose ports these are, where there are at most `most`.
fn local_edges(
    alloc: Global,
    ports: &PortNames<'_>,
    mode: &Mode,
    most: usize,
) -> Result<Vec<LocalEdge>, SizeError>
    requires { IsSoundMode ports.now mode.now }
    ensures edges { IfOk result (λ edges. AreEdges ports.now mode.now edges.items) }
    ensures few { IfOk result (λ edges. length edges.items ≤ most) }
    ensures many { IsErrOf result SizeError.TooMany → HasMoreEdges ports.now mode.now most }
{
    let names = ModeNames::new(alloc, ports, mode)?;
    match names.edges(alloc, most)? {
        Some(edges) => Ok(edges),
        None => Err(SizeError::TooMany),
    }
}

/// Adds the edges of a mode of an instance.
fn push_local(
    edges: &mut Vec<Edge>,
    places: &GraphRows,
    owner: PbIx,
    mode: u32,
    local: &[LocalEdge],
) -> Result<(), AllocError>
    requires tree { IsTree places.now.rows.keys }
    requires few_rows { length places.now.rows.keys ≤ 1048575 }
    requires few_pins { length places.now.pins.keys ≤ 1048576 }
    requires places { HavePlaces places.now.rows.keys places.now.pins.keys owner.0 mode local.now }
    ensures { OnOk result (AddsPlaced (addresses places.now.rows.keys) places.now.pins.keys owner.0
        mode local.now edges.old.items edges.new.items) }
{
    for edge in local {
        let src = place_of(&places.rows, &places.pins, owner, mode, edge.src);
        let dst = place_of(&places.rows, &places.pins, owner, mode, edge.dst);
        edges.push(Edge {
            src,
            dst,
            owner,
            mode,
            inter: edge.inter,
        })?;
    }
    Ok(())
}

/// The number of a pin of a mode of an instance.
fn place_of(
    rows: &IndexSet<Step>,
    pins: &IndexSet<PinAt>,
    owner: PbIx,
    mode: u32,
    pin: LocalPin,
) -> PinIx
    requires tree { IsTree rows.now.keys }
    requires few_rows { length rows.now.keys ≤ 1048575 }
    requires few_pins { length pins.now.keys ≤ 1048576 }
    requires there { HasPlace rows.now.keys pins.now.keys owner.0 mode pin }
    ensures { (a : Address) → slice_get (addresses rows.now.keys) owner.0 ≡ Some a → Stands
        (addresses rows.now.keys) pins.now.keys result.0 a mode pin }
{
    let pb = owner_of(rows, owner, mode, pin.owner);
    let wanted = PinAt {
        pb,
        port: pin.port,
        bit: pin.bit,
    };
    let Some(place) = place_of_pin(pins, wanted) else {
        unreachable!()
    };
    PinIx(place as u32)
}

/// The number of the instance that has a pin of a mode of an instance.
pub(crate) fn owner_of(
    rows: &IndexSet<Step>,
    owner: PbIx,
    mode: u32,
    child: Option<ChildAt>,
) -> PbIx
    requires tree { IsTree rows.now.keys }
    requires few { length rows.now.keys ≤ 1048575 }
    requires there { (pb : ℕ) × IsOwner rows.now.keys owner.0 mode child pb }
    ensures { IsOwner rows.now.keys owner.0 mode child result.0 }
{
    let Some(child) = child else {
        return owner;
    };
    let step = Step {
        parent: owner,
        mode,
        child: child.child,
        instance: child.instance,
    };
    let Some(row) = place_of_step(rows, step) else {
        unreachable!()
    };
    PbIx(row as u32 + 1)
}
