ghost use Rattle.std.specs.Prelude.{◌≡◌, ◌<◌, ◌-◌, ◌^◌, ◌++◌, ℕ, length, IfOk, OnOk};
ghost use Rattle.std.specs.List.{All};
ghost use Rattle.net_types.specs.Ends.{HasOneMaker};
ghost use Rattle.net_types.specs.Inside.{HasDrivers, HasSinks};
ghost use Rattle.net_types.specs.WellFormed.{HaveNets, count_conns};
ghost use Rattle.net_types.specs.Pairs.{pairs_at, PutsMaker};

use crate::{Atom, Conn};
use flat_tables::FlatTable;
use std::alloc::{AllocError, Global};

/// For each net the inputs that take it.
pub(crate) fn sinks_of(
    alloc: Global,
    atoms: &[Atom],
    nets: u32,
) -> Result<FlatTable<(u32, u32)>, AllocError>
    requires within { HaveNets nets atoms.now }
    requires few { length atoms.now < 2 ^ 32 }
    requires few_conns { count_conns atoms.now < 2 ^ 32 - 1 }
    ensures { IfOk result (HasSinks atoms.now nets) }
{
    let mut pairs = Vec::new(alloc);
    for (number, atom) in atoms.iter().enumerate() {
        add_pairs(&mut pairs, number as u32, atom.ins.as_slice())?;
    }
    Ok(FlatTable::from_pairs(alloc, pairs.as_slice(), nets)?)
}

/// Adds the connections of one atom, each behind its net.
fn add_pairs(
    pairs: &mut Vec<(u32, (u32, u32))>,
    number: u32,
    conns: &[Conn],
) -> Result<(), AllocError>
    requires { length conns.now < 2 ^ 32 }
    ensures { OnOk result (pairs.new.items ≡ pairs.old.items ++ pairs_at number 0 conns.now) }
{
    for (place, conn) in conns.iter().enumerate() {
        pairs.push((conn.net, (number, place as u32)))?;
    }
    Ok(())
}

/// For each net the atom that makes it.
pub(crate) fn drivers_of(alloc: Global, atoms: &[Atom], nets: u32) -> Result<Vec<u32>, AllocError>
    requires within { HaveNets nets atoms.now }
    requires few { length atoms.now < 2 ^ 32 }
    requires made { (net : ℕ) → net < nets → HasOneMaker atoms.now net }
    ensures { IfOk result (λ drivers. HasDrivers atoms.now nets drivers.items) }
{
    let mut drivers = vec![in alloc; 0; nets as usize]?;
    for (number, atom) in atoms.iter().enumerate() {
        put_maker(drivers.as_mut_slice(), number as u32, atom.outs.as_slice());
    }
    Ok(drivers)
}

/// Puts down one atom as the maker of these connections' nets.
fn put_maker(drivers: &mut [u32], number: u32, conns: &[Conn])
    requires { All (λ c. c.net < length drivers.old) conns.now }
    ensures { PutsMaker conns.now number drivers.old drivers.new }
{
    for conn in conns {
        drivers[conn.net as usize] = number;
    }
}
