ghost use Rattle.std.specs.Prelude.{◌<◌, ◌^◌, None, IfOk, MatchOption, length};
ghost use Rattle.std.specs.List.{All};
ghost use Rattle.vtr_base.specs.Lists.{Has, IsFirstPlace};
ghost use Rattle.net_types.specs.WellFormed.{HaveNets};
ghost use Rattle.net_faults.specs.Steps.{AreMakers, PutsMaker};

use net_types::{Atom, Conn};
use std::alloc::{AllocError, Global};

/// For each net the number of an atom that makes it, where there is one. It takes time linear in
/// the number of nets and connections.
pub fn makers_of(alloc: Global, atoms: &[Atom], nets: u32) -> Result<Vec<Option<u32>>, AllocError>
    requires within { HaveNets nets atoms.now }
    requires few { length atoms.now < 2 ^ 32 }
    ensures { IfOk result (λ makers. AreMakers atoms.now nets makers.items) }
{
    let mut makers: Vec<Option<u32>> = vec![in alloc; None; nets as usize]?;
    for (number, atom) in atoms.iter().enumerate() {
        put_maker(makers.as_mut_slice(), number as u32, atom.outs.as_slice());
    }
    Ok(makers)
}

/// Puts down one atom as the maker of these connections' nets.
fn put_maker(makers: &mut [Option<u32>], number: u32, conns: &[Conn])
    requires { All (λ c. c.net < length makers.old) conns.now }
    ensures { PutsMaker conns.now number makers.old makers.new }
{
    for conn in conns {
        makers[conn.net as usize] = Some(number);
    }
}

/// The first net that has no maker, by its number.
pub fn first_unmade(makers: &[Option<u32>]) -> Option<u32>
    requires { length makers.now < 2 ^ 32 }
    ensures { MatchOption result (Has makers.now None → ⊥) (IsFirstPlace makers.now None) }
{
    for (net, maker) in makers.iter().enumerate() {
        if maker.is_none() {
            return Some(net as u32);
        }
    }
    None
}
