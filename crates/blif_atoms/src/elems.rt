ghost use Rattle.std.specs.Prelude.{◌≡◌, ◌++◌, ◌∷◌, [], codes, IfOk, OnOk, map};
ghost use Rattle.vtr_base.specs.Lists.{Has};
ghost use Rattle.net_types.specs.Atoms.{IsAtom};
ghost use Rattle.blif_items.specs.declared.elem.Elem.{Elem as ElemAt};
ghost use Rattle.blif_parts.specs.Atoms.{conn_at, elem_atom};

use crate::boxes::Sides;
use crate::conns::{bit_conns, conn_of, only_conn};
use crate::order::reversed;
use blif_items::Elem;
use net_types::{Atom, AtomKind, Conn};
use sqlite_items::Items;
use std::alloc::{AllocError, Global};
use vtr_base::Bits;

/// Appends the atoms of elements.
pub(crate) fn push_elems(
    alloc: Global,
    atoms: &mut Vec<Atom>,
    elems: Items<Elem>,
) -> Result<(), AllocError>
    requires { (e : ElemAt) → Has elems e → IsAtom (elem_atom e) }
    ensures { OnOk result (atoms.new.items ≡ atoms.old.items ++ map elem_atom elems) }
{
    let mut left = reversed(alloc, elems)?;
    'elems: while let Some(elem) = left.pop() {
        atoms.push(atom_of(alloc, elem)?)?;
    }
    Ok(())
}

/// The atom of an element.
fn atom_of(alloc: Global, elem: Elem) -> Result<Atom, AllocError>
    requires { IsAtom (elem_atom elem) }
    ensures { IfOk result (λ atom. atom ≡ elem_atom elem) }
{
    match elem {
        Elem::Lut {
            name,
            inputs,
            output,
            table,
        } => Ok(Atom {
            name,
            kind: AtomKind::Lut,
            ins: bit_conns(alloc, "in", inputs.as_slice())?,
            outs: only_conn(alloc, "out", output)?,
            table,
            params: Items::new(alloc),
        }),
        Elem::Latch {
            name,
            loaded,
            made,
            control,
        } => Ok(Atom {
            name,
            kind: AtomKind::Latch,
            ins: latch_conns(alloc, loaded, control)?,
            outs: only_conn(alloc, "out", made)?,
            table: Bits::zeros(alloc, 0)?,
            params: Items::new(alloc),
        }),
        Elem::Box {
            name,
            model,
            pins,
            params,
        } => {
            let Sides { ins, outs } = Sides::of(alloc, pins)?;
            let table = Bits::zeros(alloc, 0)?;
            let kind = AtomKind::Cell(model);
            Ok(Atom {
                name,
                kind,
                ins,
                outs,
                table,
                params,
            })
        }
    }
}

/// The connections of a latch's inputs: the data pin, and then the control pin.
fn latch_conns(alloc: Global, loaded: u32, control: u32) -> Result<Items<Conn>, AllocError>
    ensures { IfOk result (λ conns. conns
        ≡ conn_at (codes "in") 0 loaded ∷ conn_at (codes "clk") 0 control ∷ []) }
{
    let mut conns = only_conn(alloc, "in", loaded)?;
    conns.push(conn_of(alloc, "clk", 0, control)?)?;
    Ok(conns)
}
