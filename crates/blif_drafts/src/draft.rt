ghost use Rattle.std.specs.Prelude.{IfOk};
ghost use Rattle.blif_parts.specs.Models.{AreParts, ModelSaid, no_model};
ghost use Rattle.blif_drafts.specs.Seen.{Holds};

use crate::elements::Elements;
use blif_books::Book;
use blif_parts::ModelParts;
use sqlite_items::Items;
use std::alloc::{AllocError, Global};

/// A model as far as its lines are read. Contracts tie it by `Holds` to what the lines say, since
/// a cover keeps no rows.
#[derive(Drop)]
pub struct Draft {
    pub(crate) book: Book,
    pub(crate) inputs: Items<u32>,
    pub(crate) outputs: Items<u32>,
    pub(crate) elements: Elements,
}

impl Draft {
    /// No line is read.
    pub fn new(alloc: Global) -> Draft
        ensures { Holds no_model result }
    {
        Draft {
            book: Book::new(alloc),
            inputs: Items::new(alloc),
            outputs: Items::new(alloc),
            elements: Elements::new(alloc),
        }
    }

    /// The model, to which nothing is added any more.
    pub fn into_parts(self, alloc: Global) -> Result<ModelParts, AllocError>
        ensures { IfOk result (λ parts. (m : ModelSaid) → Holds m self → AreParts m parts) }
    {
        let nets = self.book.nets().copy(alloc)?;
        Ok(ModelParts {
            nets,
            inputs: self.inputs,
            outputs: self.outputs,
            elems: self.elements.into_elems()?,
        })
    }
}
