ghost use Rattle.std.specs.Prelude.{◌≡◌, ◌⊎◌, [], List, IfErr, OnOk};
ghost use Rattle.blif_elems.specs.Seen.{texts};
ghost use Rattle.blif_errors.specs.declared.error.BlifError.TheVariants.{BadLine, OutOfMemory};
ghost use Rattle.blif_items.specs.Items.{ElemSaid};
ghost use Rattle.blif_drafts.specs.Changes.{CantPutRowTo, EndsWithLut, PutsParamTo, PutsRowTo};
ghost use Rattle.blif_drafts.specs.Seen.{HoldsElems};

use crate::elements::Elements;
use blif_errors::BlifError;
use blif_items::{Open, put_row};
use std::alloc::Global;
use vtr_base::Place;

impl Elements {
    /// Adds a row to the cover of the last element.
    pub(crate) fn put_row(
        &mut self,
        alloc: Global,
        words: &[&str],
        place: Place,
    ) -> Result<(), BlifError>
        ensures put { OnOk result ((all : List ElemSaid) → HoldsElems all self.old
            → PutsRowTo all (texts words.now) self.new) }
        ensures refused { IfErr result (λ e. (e ≡ OutOfMemory)
            ⊎ ((all : List ElemSaid) → HoldsElems all self.old
            → ((EndsWithLut all → ⊥) × (e ≡ BadLine place))
            ⊎ CantPutRowTo all (texts words.now) place e)) }
    {
        match &mut self.last {
            Open::Lut { name, cover, .. } => put_row(alloc, name, cover, words, place),
            Open::Nothing => Err(BlifError::BadLine { place }),
            Open::Latch { .. } => Err(BlifError::BadLine { place }),
            Open::Box { .. } => Err(BlifError::BadLine { place }),
        }
    }

    /// Gives a parameter of the last element a value. An element that is no box has none.
    pub(crate) fn put_param(
        &mut self,
        alloc: Global,
        name: &str,
        value: &str,
        place: Place,
    ) -> Result<(), BlifError>
        ensures put { OnOk result ((all : List ElemSaid) → HoldsElems all self.old
            → PutsParamTo all name.now value.now self.new) }
        ensures refused { IfErr result (λ e. (e ≡ OutOfMemory)
            ⊎ ((all : List ElemSaid) → HoldsElems all self.old
            → (all ≡ []) × (e ≡ BadLine place))) }
    {
        match &mut self.last {
            Open::Box { params, .. } => {
                params.put(alloc, name, value)?;
                Ok(())
            }
            Open::Nothing => Err(BlifError::BadLine { place }),
            Open::Latch { .. } => Ok(()),
            Open::Lut { .. } => Ok(()),
        }
    }
}
