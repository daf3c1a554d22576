ghost use Rattle.std.specs.Prelude.{◌≡◌, ◌++◌, ℕ, List, map, IfOk, OnOk, OnErr};
ghost use Rattle.std.specs.List.{All};
ghost use Rattle.net_types.specs.Fits.{FitsModels};
ghost use Rattle.blif_text.specs.Atoms.{IsWritable};
ghost use Rattle.blif_text.specs.Text.{AreAtomTexts, SpellsNetlist};

use crate::atoms::put_atom;
use arch_types::{Arch, CellModel};
use blif_order::line_order;
use names::Names;
use net_types::{Atom, Netlist};
use std::alloc::{AllocError, Global};

/// Appends a text of a netlist for the architecture: the model `top`, with a line for each input
/// and each output, a `.names` with a row for each index at which its table is on, latches, and
/// boxes with their parameters, in an order in which the nets are numbered by first mention. It
/// takes linear time. Where memory runs out, nothing is appended.
pub fn write_blif(out: &mut Vec<u8>, net: &Netlist, arch: &Arch) -> Result<(), AllocError>
    requires { FitsModels arch.now.models net.now }
    ensures text { OnOk result ((text : List ℕ) × SpellsNetlist arch.now.models net.now text
        × (out.new.items ≡ out.old.items ++ text)) }
    ensures kept { OnErr result (out.new.items ≡ out.old.items) }
{
    let text = netlist_text(*out.allocator(), net, arch.models.as_slice())?;
    out.extend_from_slice(text.as_slice())
}

/// The text of a netlist.
fn netlist_text(alloc: Global, net: &Netlist, models: &[CellModel]) -> Result<Vec<u8>, AllocError>
    requires { FitsModels models.now net.now }
    ensures { IfOk result (λ text. SpellsNetlist models.now net.now text.items) }
{
    net.law();
    let lines = line_order(alloc, net)?;
    let mut text = Vec::new(alloc);
    text.extend_from_slice(b".model top\n")?;
    put_atoms(&mut text, models, net.nets(), lines.as_slice())?;
    text.extend_from_slice(b".end\n")?;
    Ok(text)
}

/// Appends the lines of these atoms.
fn put_atoms(
    out: &mut Vec<u8>,
    models: &[CellModel],
    nets: &Names,
    atoms: &[&Atom],
) -> Result<(), AllocError>
    requires { All (λ a. IsWritable models.now nets.now a.now) atoms.now }
    ensures { OnOk result ((text : List ℕ)
        × AreAtomTexts models.now nets.now (map (λ a. a.now) atoms.now) text
        × (out.new.items ≡ out.old.items ++ text)) }
{
    for atom in atoms {
        put_atom(out, models, nets, atom)?;
    }
    Ok(())
}
