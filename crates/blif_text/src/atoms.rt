ghost use Rattle.std.specs.Prelude.{◌≡◌, ◌<◌, ◌++◌, ℕ, List, length, OnOk};
ghost use Rattle.std.specs.List.{All};
ghost use Rattle.blif_text.specs.Atoms.{IsAtomText, IsBoxPut, IsWritable, input_text, latch_nets_text, latch_text, lut_text, output_text};

use crate::boxes::{put_params, put_pins};
use crate::rows::put_rows;
use crate::words::{end_line, put_nets, put_word};
use arch_types::CellModel;
use blif_order::pin_order;
use names::Names;
use net_types::{Atom, AtomKind, Conn};
use std::alloc::AllocError;

/// Appends the lines of an atom.
pub(crate) fn put_atom(
    out: &mut Vec<u8>,
    models: &[CellModel],
    nets: &Names,
    atom: &Atom,
) -> Result<(), AllocError>
    requires { IsWritable models.now nets.now atom.now }
    ensures { OnOk result ((text : List ℕ) × IsAtomText models.now nets.now atom.now text
        × (out.new.items ≡ out.old.items ++ text)) }
{
    match atom.kind {
        AtomKind::InPad => put_input(out, nets, atom),
        AtomKind::OutPad => put_output(out, nets, atom),
        AtomKind::Lut => put_lut(out, nets, atom),
        AtomKind::Latch => put_latch(out, nets, atom),
        AtomKind::Cell(number) => put_box(out, &models[number as usize], nets, atom),
    }
}

/// Appends the line of an input.
fn put_input(out: &mut Vec<u8>, nets: &Names, atom: &Atom) -> Result<(), AllocError>
    requires { All (λ c. c.net < length nets.now) atom.now.outs }
    ensures { OnOk result (out.new.items ≡ out.old.items ++ input_text nets.now atom.now) }
{
    out.extend_from_slice(b".inputs")?;
    put_nets(out, nets, atom.outs.as_slice())?;
    end_line(out)?;
    Ok(())
}

/// Appends the line of an output.
fn put_output(out: &mut Vec<u8>, nets: &Names, atom: &Atom) -> Result<(), AllocError>
    requires { All (λ c. c.net < length nets.now) atom.now.ins }
    ensures { OnOk result (out.new.items ≡ out.old.items ++ output_text nets.now atom.now) }
{
    out.extend_from_slice(b".outputs")?;
    put_nets(out, nets, atom.ins.as_slice())?;
    end_line(out)?;
    Ok(())
}

/// Appends the line of a `.names`, and its rows.
fn put_lut(out: &mut Vec<u8>, nets: &Names, atom: &Atom) -> Result<(), AllocError>
    requires ins { All (λ c. c.net < length nets.now) atom.now.ins }
    requires outs { All (λ c. c.net < length nets.now) atom.now.outs }
    ensures { OnOk result (out.new.items ≡ out.old.items ++ lut_text nets.now atom.now) }
{
    out.extend_from_slice(b".names")?;
    put_nets(out, nets, atom.ins.as_slice())?;
    put_nets(out, nets, atom.outs.as_slice())?;
    end_line(out)?;
    put_rows(out, atom.ins.len(), &atom.table)
}

/// Appends the line of a latch.
fn put_latch(out: &mut Vec<u8>, nets: &Names, atom: &Atom) -> Result<(), AllocError>
    requires ins { All (λ c. c.net < length nets.now) atom.now.ins }
    requires outs { All (λ c. c.net < length nets.now) atom.now.outs }
    ensures { OnOk result (out.new.items ≡ out.old.items ++ latch_text nets.now atom.now) }
{
    out.extend_from_slice(b".latch")?;
    put_latch_nets(out, nets, atom.ins.as_slice(), atom.outs.as_slice())?;
    end_line(out)?;
    Ok(())
}

/// Appends the nets of a latch, and `re` before its control.
fn put_latch_nets(
    out: &mut Vec<u8>,
    nets: &Names,
    ins: &[Conn],
    outs: &[Conn],
) -> Result<(), AllocError>
    requires ins { All (λ c. c.net < length nets.now) ins.now }
    requires outs { All (λ c. c.net < length nets.now) outs.now }
    ensures { OnOk result (out.new.items ≡ out.old.items
        ++ latch_nets_text nets.now ins.now outs.now) }
{
    if ins.is_empty() {
        return put_nets(out, nets, outs);
    }
    let (data_pin, control) = ins.split_at(1);
    put_nets(out, nets, data_pin)?;
    put_nets(out, nets, outs)?;
    put_word(out, "re")?;
    put_nets(out, nets, control)
}

/// Appends the line of a box, and those of its parameters.
fn put_box(
    out: &mut Vec<u8>,
    model: &CellModel,
    nets: &Names,
    atom: &Atom,
) -> Result<(), AllocError>
    requires ins { All (λ c. c.net < length nets.now) atom.now.ins }
    requires outs { All (λ c. c.net < length nets.now) atom.now.outs }
    ensures { OnOk result (IsBoxPut model.now nets.now atom.now out.old.items out.new.items) }
{
    let pins = pin_order(*out.allocator(), atom)?;
    out.extend_from_slice(b".subckt")?;
    put_word(out, model.name.as_str())?;
    put_pins(out, nets, pins.as_slice())?;
    end_line(out)?;
    put_params(out, atom.params.as_slice())
}
