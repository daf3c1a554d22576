ghost use Rattle.std.specs.Prelude.{◌++◌, ◌∷◌, [], List, IfOk, OnOk};
ghost use Rattle.blif_items.specs.Items.{ElemSaid};
ghost use Rattle.blif_items.specs.Seen.{AreElems, IsOpen};
ghost use Rattle.blif_drafts.specs.Seen.{HoldsElems};

use crate::counting::count_box;
use blif_items::{Elem, Open, reopen};
use sqlite_items::Items;
use std::alloc::{AllocError, Global};

/// The elements of a model as far as its lines are read.
#[derive(Drop)]
pub(crate) struct Elements {
    /// All but the last one.
    pub whole: Vec<Elem>,
    pub last: Open,
    /// How many of them are boxes.
    pub boxes: u32,
}

impl Elements {
    /// No elements.
    pub fn new(alloc: Global) -> Elements
        ensures { HoldsElems [] result }
    {
        Elements {
            whole: Vec::new(alloc),
            last: Open::Nothing,
            boxes: 0,
        }
    }

    /// Puts an element behind the others. More than 2^32 - 1 boxes are told as want of memory.
    pub fn open(&mut self, next: Open) -> Result<(), AllocError>
        ensures { OnOk result ((all : List ElemSaid) (e : ElemSaid) → HoldsElems all self.old
            → IsOpen all (all ++ e ∷ []) next → HoldsElems (all ++ e ∷ []) self.new) }
    {
        let boxes = count_box(self.boxes, &next)?;
        reopen(&mut self.whole, &mut self.last, next)?;
        self.boxes = boxes;
        Ok(())
    }

    /// The elements, to which nothing is added any more.
    pub fn into_elems(self) -> Result<Items<Elem>, AllocError>
        ensures { IfOk result (λ elems. (all : List ElemSaid) → HoldsElems all self
            → AreElems all elems) }
    {
        let mut whole = self.whole;
        let mut last = self.last;
        reopen(&mut whole, &mut last, Open::Nothing)?;
        Ok(Items::from_vec(whole))
    }
}
