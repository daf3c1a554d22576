ghost use Rattle.std.specs.Prelude.{◌≡◌, IfOk, length};
ghost use Rattle.std.specs.List.{All};
ghost use Rattle.net_types.specs.Atoms.{IsAtom};
ghost use Rattle.net_types.specs.WellFormed.{HaveNets};
ghost use Rattle.blif_parts.specs.Atoms.{atoms_of, net_of};

use crate::elems::push_elems;
use crate::pads::{push_inputs, push_outputs};
use blif_parts::ModelParts;
use net_types::NetlistParts;
use sqlite_items::Items;
use std::alloc::{AllocError, Global};

/// The nets and the atoms of a model: one atom for each input, then one for each output, then one
/// for each element. Names, tables and parameters of elements are moved, not copied. It takes time
/// linear in the size of the model.
pub fn into_atoms(alloc: Global, parts: ModelParts) -> Result<NetlistParts, AllocError>
    requires each { All IsAtom (atoms_of parts) }
    requires within { HaveNets (length parts.nets) (atoms_of parts) }
    ensures { IfOk result (λ net. net ≡ net_of parts) }
{
    let ModelParts {
        nets,
        inputs,
        outputs,
        elems,
    } = parts;
    let mut atoms = Vec::with_capacity(alloc, inputs.len())?;
    push_inputs(alloc, &mut atoms, &nets, inputs.as_slice())?;
    push_outputs(alloc, &mut atoms, &nets, outputs.as_slice())?;
    push_elems(alloc, &mut atoms, elems)?;
    let atoms = Items::from_vec(atoms);
    Ok(NetlistParts { nets, atoms })
}
