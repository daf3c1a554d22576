ghost use Rattle.std.specs.Prelude.{◌≡◌, ◌≤◌, ◌<◌, ◌⊎◌, ◌↔◌, IsTrue, IfOk, IfErr, length};
ghost use Rattle.blif_errors.specs.declared.error.BlifError.TheVariants.{OutOfMemory};
ghost use Rattle.blif_parts.specs.Atoms.{atoms_of, net_of};
ghost use Rattle.blif_wholes.specs.Wholes.{IsOfLines, IsOfModel, IsFaulty, IsWholeRefused};

use blif_atoms::into_atoms;
use blif_errors::BlifError;
use blif_parts::ModelParts;
use net_faults::{first_unmade, least_loop, makers_of};
use net_types::{Netlist, NetlistParts};
use std::alloc::Global;
use vtr_base::Text;

/// The most atoms that a netlist may have.
const MOST_ATOMS: usize = 65536;

/// The netlist of a model. A model is refused where it has more than 65,536 atoms, else where a net
/// has no driver, and else where a cycle runs through LUTs. It takes time linear in the size of the
/// model.
pub fn into_netlist(alloc: Global, parts: ModelParts) -> Result<Netlist, BlifError>
    requires { IsOfLines parts }
    ensures netlist { IfOk result (λ netlist. netlist ≡ net_of parts) }
    ensures refused { IfErr result (λ e. (e ≡ OutOfMemory) ⊎ IsWholeRefused (net_of parts) e) }
{
    if has_too_many(&parts) {
        return Err(BlifError::Limit);
    }
    let net = into_atoms(alloc, parts)?;
    whole(alloc, net)
}

/// Whether a model has more atoms than a netlist may have.
fn has_too_many(parts: &ModelParts) -> bool
    ensures { IsTrue result ↔ (65536 < length (atoms_of parts.now)) }
{
    let pads = parts.inputs.len().saturating_add(parts.outputs.len());
    pads.saturating_add(parts.elems.len()) > MOST_ATOMS
}

/// The netlist of the nets and the few atoms of a model.
fn whole(alloc: Global, net: NetlistParts) -> Result<Netlist, BlifError>
    requires few { length net.atoms ≤ 65536 }
    requires model { IsOfModel net }
    ensures netlist { IfOk result (λ netlist. netlist ≡ net) }
    ensures refused { IfErr result (λ e. (e ≡ OutOfMemory) ⊎ IsFaulty net e) }
{
    let makers = makers_of(alloc, net.atoms.as_slice(), net.nets.count())?;
    if let Some(unmade) = first_unmade(makers.as_slice()) {
        let name = Text::from_str(alloc, net.nets.text(unmade))?;
        return Err(BlifError::NoDriver { net: name });
    }
    match least_loop(alloc, net.atoms.as_slice(), makers.as_slice())? {
        Some(atoms) => Err(BlifError::CombLoop { atoms }),
        None => Ok(net.into_netlist(alloc)?),
    }
}
