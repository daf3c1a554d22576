ghost use Rattle.std.specs.Prelude.{◌≡◌, ◌↔◌, ◌≤◌, ◌<◌, ◌^◌, ℕ, IfOk, OnOk, IsTrue, MatchOption, length, vec_len};
ghost use Rattle.std.specs.List.{All};
ghost use Rattle.arch_types.specs.declared.block.AtomKind.TheVariants.{Lut};
ghost use Rattle.net_types.specs.Ends.{HasOneMaker};
ghost use Rattle.net_types.specs.WellFormed.{HaveNets, count_conns};
ghost use Rattle.net_faults.specs.Loops.{AreFeeds};
ghost use Rattle.net_faults.specs.Steps.{AreMakers, AddsFeeds, IsLutOf};

use net_types::{Atom, AtomKind, Conn};
use std::alloc::{AllocError, Global};

/// From each LUT an edge to each LUT that takes its net. A pair may stand several times.
pub(crate) fn feeds_of(
    alloc: Global,
    atoms: &[Atom],
    makers: &[Option<u32>],
) -> Result<Vec<(u32, u32)>, AllocError>
    requires makers { AreMakers atoms.now (length makers.now) makers.now }
    requires within { HaveNets (length makers.now) atoms.now }
    requires few { length atoms.now < 2 ^ 32 }
    requires made { (net : ℕ) → net < length makers.now → HasOneMaker atoms.now net }
    ensures feeds { IfOk result (λ edges. AreFeeds atoms.now edges.items) }
    ensures few { IfOk result (λ edges. vec_len edges ≤ count_conns atoms.now) }
{
    let mut edges = Vec::new(alloc);
    for (taker, atom) in atoms.iter().enumerate() {
        if is_lut(atom.kind) {
            add_feeds(&mut edges, atoms, makers, taker as u32, atom.ins.as_slice())?;
        }
    }
    Ok(edges)
}

fn is_lut(kind: AtomKind) -> bool
    ensures { IsTrue result ↔ (kind ≡ Lut) }
{
    kind == AtomKind::Lut
}

/// Adds the edges to one LUT, by its inputs.
fn add_feeds(
    edges: &mut Vec<(u32, u32)>,
    atoms: &[Atom],
    makers: &[Option<u32>],
    taker: u32,
    ins: &[Conn],
) -> Result<(), AllocError>
    requires makers { AreMakers atoms.now (length makers.now) makers.now }
    requires within { All (λ c. c.net < length makers.now) ins.now }
    requires made { (net : ℕ) → net < length makers.now → HasOneMaker atoms.now net }
    ensures { OnOk result
        (AddsFeeds atoms.now taker ins.now edges.old.items edges.new.items) }
{
    for conn in ins {
        if let Some(maker) = lut_maker(atoms, makers, conn.net) {
            edges.push((maker, taker))?;
        }
    }
    Ok(())
}

/// The LUT that makes a net, if one does.
fn lut_maker(atoms: &[Atom], makers: &[Option<u32>], net: u32) -> Option<u32>
    requires makers { AreMakers atoms.now (length makers.now) makers.now }
    requires within { net < length makers.now }
    requires made { HasOneMaker atoms.now net }
    ensures { MatchOption result ((number : ℕ) → IsLutOf atoms.now net number → ⊥)
        (IsLutOf atoms.now net) }
{
    let maker = makers[net as usize]?;
    if is_lut(atoms[maker as usize].kind) {
        Some(maker)
    } else {
        None
    }
}
