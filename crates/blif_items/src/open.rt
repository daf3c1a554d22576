ghost use Rattle.std.specs.Prelude.{◌≡◌, ◌++◌, ◌∷◌, [], List, OnOk, MatchOption};
ghost use Rattle.blif_items.specs.Items.{ElemSaid};
ghost use Rattle.blif_items.specs.Seen.{IsOpen, IsElem, AreElems};

use crate::params::Params;
use crate::{Elem, PinAt};
use blif_covers::Cover;
use sqlite_items::Items;
use std::alloc::AllocError;
use std::mem;
use vtr_base::Text;

/// The last element, to which later lines may add something.
#[derive(Drop)]
pub enum Open {
    /// There is no element.
    Nothing,
    Lut {
        name: Text,
        inputs: Items<u32>,
        output: u32,
        cover: Cover,
    },
    Latch {
        name: Text,
        loaded: u32,
        made: u32,
        control: u32,
    },
    Box {
        name: Text,
        model: u32,
        pins: Items<PinAt>,
        params: Params,
    },
}

impl Open {
    /// The element, as it is when nothing is added to it any more.
    pub fn into_elem(self) -> Option<Elem>
        ensures { (front all : List ElemSaid) → IsOpen front all self
            → MatchOption result ((front ≡ []) × (all ≡ []))
            (λ elem. (e : ElemSaid) × (all ≡ front ++ e ∷ []) × IsElem e elem) }
    {
        match self {
            Open::Nothing => None,
            Open::Lut {
                name,
                inputs,
                output,
                cover,
            } => Some(Elem::Lut {
                name,
                inputs,
                output,
                table: cover.into_table(),
            }),
            Open::Latch {
                name,
                loaded,
                made,
                control,
            } => Some(Elem::Latch {
                name,
                loaded,
                made,
                control,
            }),
            Open::Box {
                name,
                model,
                pins,
                params,
            } => Some(Elem::Box {
                name,
                model,
                pins,
                params: params.items,
            }),
        }
    }
}

/// Puts the open element behind the whole ones, and opens the next one.
pub fn reopen(elems: &mut Vec<Elem>, last: &mut Open, next: Open) -> Result<(), AllocError>
    ensures whole { OnOk result ((front all : List ElemSaid) → AreElems front elems.old.items
        → IsOpen front all last.old → AreElems all elems.new.items) }
    ensures next { OnOk result (last.new ≡ next) }
{
    let Some(elem) = mem::replace(last, next).into_elem() else {
        return Ok(());
    };
    elems.push(elem)?;
    Ok(())
}
