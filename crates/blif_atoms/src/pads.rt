ghost use Rattle.std.specs.Prelude.{◌≡◌, ◌<◌, ◌++◌, [], ℕ, IfOk, OnOk, length, map};
ghost use Rattle.vtr_base.specs.Lists.{Has};
ghost use Rattle.arch_types.specs.declared.block.AtomKind.TheVariants.{InPad};
ghost use Rattle.blif_parts.specs.Atoms.{input_atom, output_atom};

use crate::conns::only_conn;
use names::Names;
use net_types::{Atom, AtomKind};
use sqlite_items::Items;
use std::alloc::{AllocError, Global};
use vtr_base::{Bits, Text};

/// Appends the atoms of inputs.
pub(crate) fn push_inputs(
    alloc: Global,
    atoms: &mut Vec<Atom>,
    nets: &Names,
    inputs: &[u32],
) -> Result<(), AllocError>
    requires { (net : ℕ) → Has inputs.now net → net < length nets.now }
    ensures { OnOk result
        (atoms.new.items ≡ atoms.old.items ++ map (input_atom nets.now) inputs.now) }
{
    for net in inputs {
        atoms.push(input_pad(alloc, nets, *net)?)?;
    }
    Ok(())
}

/// Appends the atoms of outputs.
pub(crate) fn push_outputs(
    alloc: Global,
    atoms: &mut Vec<Atom>,
    nets: &Names,
    outputs: &[u32],
) -> Result<(), AllocError>
    requires { (net : ℕ) → Has outputs.now net → net < length nets.now }
    ensures { OnOk result
        (atoms.new.items ≡ atoms.old.items ++ map (output_atom nets.now) outputs.now) }
{
    for net in outputs {
        atoms.push(output_pad(alloc, nets, *net)?)?;
    }
    Ok(())
}

/// The atom of an input, which has the name of its net.
fn input_pad(alloc: Global, nets: &Names, net: u32) -> Result<Atom, AllocError>
    requires { net < length nets.now }
    ensures { IfOk result (λ atom. atom ≡ input_atom nets.now net) }
{
    Ok(Atom {
        name: Text::from_str(alloc, nets.text(net))?,
        kind: AtomKind::InPad,
        ins: Items::new(alloc),
        outs: only_conn(alloc, "out", net)?,
        table: Bits::zeros(alloc, 0)?,
        params: Items::new(alloc),
    })
}

/// The atom of an output, which has `out:` in front of the name of its net.
fn output_pad(alloc: Global, nets: &Names, net: u32) -> Result<Atom, AllocError>
    requires { net < length nets.now }
    ensures { IfOk result (λ atom. atom ≡ output_atom nets.now net) }
{
    let mut name = Text::from_str(alloc, "out:")?;
    name.push_str(nets.text(net))?;
    Ok(Atom {
        name,
        kind: AtomKind::OutPad,
        ins: only_conn(alloc, "in", net)?,
        outs: Items::new(alloc),
        table: Bits::zeros(alloc, 0)?,
        params: Items::new(alloc),
    })
}
