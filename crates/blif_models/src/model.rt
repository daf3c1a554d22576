ghost use Rattle.std.specs.Prelude.{◌≡◌, ◌⊎◌, IfErr, IfOk, OnOk};
ghost use Rattle.blif_errors.specs.declared.error.BlifError.TheVariants.{OutOfMemory};
ghost use Rattle.blif_parts.specs.Lines.{CantEnd, MayEnd};
ghost use Rattle.blif_models.specs.Files.{end_of, FileIsRefused, FileSays};

use crate::reading::Reading;
use blif_drafts::Draft;
use blif_errors::BlifError;
use blif_lines::{Cursor, next_line, one_reading};
use blif_parts::ModelParts;
use blif_phases::Phase;
use blif_pins::BoxModels;
use blif_whole::every_file_has_lines;
use elem_text::place_after;
use std::alloc::Global;
use vtr_base::{Place, Text};

/// Reads the model of a file, whose boxes are of these models. Refusals come in the order of the
/// lines, and that of a file without a model, or whose last model is cut off, after them.
pub fn read_model(
    alloc: Global,
    bytes: &[u8],
    models: &BoxModels<'_>,
) -> Result<ModelParts, BlifError>
    ensures model { IfOk result (FileSays models.now bytes.now) }
    ensures refused { IfErr result (λ e. (e ≡ OutOfMemory)
        ⊎ FileIsRefused models.now bytes.now e) }
{
    one_reading();
    every_file_has_lines();
    let mut reading = Reading {
        phase: Phase::Before,
        draft: Draft::new(alloc),
    };
    let mut at = Cursor::new(bytes);
    while let Some((line, behind)) = next_line(alloc, at)? {
        reading.read_line(alloc, models, &line)?;
        at = behind;
    }
    end_in(alloc, reading.phase, bytes)?;
    Ok(reading.draft.into_parts(alloc)?)
}

/// Sees that a file may end in this phase.
fn end_in(alloc: Global, phase: Phase, bytes: &[u8]) -> Result<(), BlifError>
    ensures may { OnOk result (MayEnd phase) }
    ensures refused { IfErr result (λ e. (e ≡ OutOfMemory)
        ⊎ CantEnd phase (end_of bytes.now) e) }
{
    match phase {
        Phase::Before => Err(BlifError::BadLine {
            place: place_after(Place { line: 1, byte: 1 }, bytes),
        }),
        Phase::Later => Err(BlifError::Unsupported {
            word: Text::from_str(alloc, ".model")?,
        }),
        Phase::Inside => Ok(()),
        Phase::Behind => Ok(()),
        Phase::BlackBox => Ok(()),
    }
}
