ghost use Rattle.std.specs.Prelude.{IfOk};
ghost use Rattle.blif_parts.specs.Models.{ModelSaid};
ghost use Rattle.blif_parts.specs.Refusals.{IsStrayRefusal, IsWideRefusal};
ghost use Rattle.blif_drafts.specs.Seen.{Holds};

use crate::Draft;
use blif_errors::BlifError;
use blif_pins::BoxModels;
use std::alloc::{AllocError, Global};
use vtr_base::{Place, Text};

impl Draft {
    /// Why a `.names` of the model with too many inputs is refused: its output may be driven, and
    /// its name taken.
    pub fn wide(&self, alloc: Global, output: &str, place: Place) -> Result<BlifError, AllocError>
        ensures { IfOk result (λ e. (m : ModelSaid) → Holds m self.now
            → IsWideRefusal m output.now place e) }
    {
        let net = Text::from_str(alloc, output)?;
        if self.book.drives(output) {
            return Ok(BlifError::TwoDrivers { net });
        }
        if self.book.has_atom(output) {
            return Ok(BlifError::BadLine { place });
        }
        Ok(BlifError::WideNames { net })
    }
}

/// Why a box outside the model is refused.
pub fn stray(
    alloc: Global,
    models: &BoxModels<'_>,
    name: &str,
    place: Place,
) -> Result<BlifError, AllocError>
    ensures { IfOk result (IsStrayRefusal models.now name.now place) }
{
    match models.find(name) {
        Some(_) => Ok(BlifError::BadLine { place }),
        None => Ok(BlifError::UnknownModel {
            name: Text::from_str(alloc, name)?,
        }),
    }
}
