ghost use Rattle.std.specs.Prelude.{◌≡◌, ◌≢◌, ◌≤◌, ◌<◌, ◌+◌, ◌-◌, ◌^◌, ◌↔◌, ℕ, List, [], Any, Some, IsTrue, OnOk, length, slice_get};
ghost use Rattle.std.specs.List.{All};
ghost use Rattle.vtr_base.specs.Lists.{Has};
ghost use Rattle.arch_types.specs.declared.block.AtomKind.TheVariants.{Lut};
ghost use Rattle.task_types.specs.Nets.{NetSaid};
ghost use Rattle.task_rules.specs.Joined.{IsJoined, IsListed};
ghost use Rattle.task_rules.specs.Needs.{AreAsked};
ghost use Rattle.task_needs.specs.Plain.{Before};

use net_types::{Atom, AtomKind, Conn, Netlist};
use number_places::Numbers;
use std::alloc::AllocError;
use task_types::Need;

/// Adds what is asked for at the input connections of these atoms, atom by atom.
pub(crate) fn push_all_asked(
    needs: &mut Vec<Need>,
    net: &Netlist,
    atoms: &[u32],
    nets: &Numbers,
) -> Result<(), AllocError>
    requires none { needs.old.items ≡ [] }
    requires few { length atoms.now ≤ 4096 }
    requires there { (number : ℕ) → Has atoms.now number → number < length net.now.atoms }
    requires joined { (k : ℕ) → IsJoined net.now.atoms atoms.now k → Has nets.now k }
    ensures { OnOk result
        (AreAsked net.now.atoms atoms.now nets.now (λ spot. Unit {0}) needs.new.items) }
{
    net.law();
    for (place, number) in atoms.iter().enumerate() {
        push_asked(needs, &net.atoms()[*number as usize], place as u32, nets)?;
    }
    Ok(())
}

/// Adds what is asked for at the input connections of the atom at that place.
fn push_asked(
    needs: &mut Vec<Need>,
    atom: &Atom,
    place: u32,
    nets: &Numbers,
) -> Result<(), AllocError>
    requires few { length atom.now.ins < 2 ^ 32 }
    requires joined { All (λ conn. Has nets.now conn.net) atom.now.ins }
    ensures { OnOk result ((n : NetSaid) (atoms : List ℕ) → IsListed n atoms place atom.now
        → AreAsked n atoms nets.now (Before place 0) needs.old.items
        → AreAsked n atoms nets.now (Before (place + 1) 0) needs.new.items) }
{
    let conns = atom.ins.as_slice();
    for (input, conn) in conns.iter().enumerate() {
        if !is_known(atom.kind, &conns[..input], conn.net) {
            needs.push(asked_at(atom.kind, place, input as u32, place_of(nets, conn.net)))?;
        }
    }
    Ok(())
}

/// The place of a net that is there.
fn place_of(nets: &Numbers, net: u32) -> u32
    requires { Has nets.now net }
    ensures { slice_get nets.now result ≡ Some net }
{
    match nets.place_of(net) {
        Some(place) => place,
        None => unreachable!(),
    }
}

/// What an atom of that kind asks for at an input connection, where it asks.
fn asked_at(kind: AtomKind, atom: u32, conn: u32, net: u32) -> Need
    ensures lut { kind ≡ Lut → result ≡ Need.LutNet atom net }
    ensures other { kind ≢ Lut → result ≡ Need.Input atom conn net }
{
    match kind {
        AtomKind::Lut => Need::LutNet { atom, net },
        _ => Need::Input { atom, conn, net },
    }
}

/// Whether the atom is a LUT, one of whose inputs before is of the net.
fn is_known(kind: AtomKind, before: &[Conn], net: u32) -> bool
    ensures { IsTrue result ↔ ((kind ≡ Lut) × Any (λ conn. conn.net ≡ net) before.now) }
{
    kind == AtomKind::Lut && has_net(before, net)
}

/// Whether one of the connections is of the net.
fn has_net(conns: &[Conn], net: u32) -> bool
    ensures { IsTrue result ↔ Any (λ conn. conn.net ≡ net) conns.now }
{
    conns.iter().any(|conn| conn.net == net)
}
