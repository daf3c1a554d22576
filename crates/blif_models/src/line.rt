ghost use Rattle.std.specs.Prelude.{◌≡◌, ◌⊎◌, true, IfErr, IfOk, IsUtf8, OnOk};
ghost use Rattle.blif_drafts.specs.Seen.{Holds};
ghost use Rattle.blif_errors.specs.declared.error.BlifError.TheVariants.{OutOfMemory};
ghost use Rattle.blif_lines.specs.Seen.{seen, text_seen};
ghost use Rattle.blif_parts.specs.Lines.{IsLineRefused, IsStopRefusal};
ghost use Rattle.blif_parts.specs.Models.{ModelSaid};
ghost use Rattle.blif_phases.specs.Seen.{stop_said};
ghost use Rattle.blif_models.specs.Reading.{ReadsLine};

use crate::reading::Reading;
use blif_drafts::stray;
use blif_errors::BlifError;
use blif_lines::Line;
use blif_phases::{Stop, step};
use blif_pins::BoxModels;
use std::alloc::{AllocError, Global};
use vtr_base::{Place, Text};

impl Reading {
    /// Reads a line.
    pub fn read_line(
        &mut self,
        alloc: Global,
        models: &BoxModels<'_>,
        line: &Line<'_>,
    ) -> Result<(), BlifError>
        requires { line.now.is_utf8 ≡ true → IsUtf8 (text_seen line.now.text) }
        ensures read { OnOk result ((m : ModelSaid) → Holds m self.old.draft
            → ReadsLine models.now self.old.phase m (seen line.now) self.new) }
        ensures refused { IfErr result (λ e. (e ≡ OutOfMemory)
            ⊎ ((m : ModelSaid) → Holds m self.old.draft
            → IsLineRefused models.now self.old.phase m (seen line.now) e)) }
    {
        let words = line.words(alloc)?;
        match step(self.phase, line.is_utf8, words.as_slice()) {
            Ok((next, statement)) => {
                self.draft.add(alloc, models, &statement, line.place)?;
                self.phase = next;
                Ok(())
            }
            Err(stop) => Err(self.refusal(alloc, models, stop, line.place)?),
        }
    }

    /// Why a line that stops is refused.
    fn refusal(
        &self,
        alloc: Global,
        models: &BoxModels<'_>,
        stop: Stop<'_>,
        place: Place,
    ) -> Result<BlifError, AllocError>
        ensures { IfOk result (λ e. (m : ModelSaid) → Holds m self.now.draft
            → IsStopRefusal models.now m (stop_said stop.entry) place e) }
    {
        match stop {
            Stop::BadLine => Ok(BlifError::BadLine { place }),
            Stop::WideNames { net } => self.draft.wide(alloc, net, place),
            Stop::LatchKind { net } => Ok(BlifError::LatchKind {
                net: Text::from_str(alloc, net)?,
            }),
            Stop::Unsupported { word } => Ok(BlifError::Unsupported {
                word: Text::from_str(alloc, word)?,
            }),
            Stop::StrayBox { model } => stray(alloc, models, model, place),
        }
    }
}
