ghost use Rattle.std.specs.Prelude.{◌≡◌, ◌⊎◌, IfErr, IfOk};
ghost use Rattle.blif_errors.specs.declared.error.BlifError.TheVariants.{OutOfMemory};
ghost use Rattle.blif_models.specs.Files.{FileIsRefused, FileSays};
ghost use Rattle.blif_parts.specs.Facts.{IsModel};

use arch_types::Arch;
use blif_errors::BlifError;
use blif_models::read_model;
use blif_parts::ModelParts;
use blif_pins::BoxModels;
use model_laws::model_law;
use std::alloc::Global;

/// The number of bytes from which on a file is told as want of memory, so that the connections of
/// its atoms have numbers of 32 bits.
const TOO_LONG: usize = 4_294_967_295;

/// Reads the model of a file, whose boxes are of the architecture's models. Files of 2^32 - 1 bytes
/// and more are told as want of memory.
pub fn read_parts(alloc: Global, bytes: &[u8], arch: &Arch) -> Result<ModelParts, BlifError>
    ensures model { IfOk result (FileSays arch.now.models bytes.now) }
    ensures keeps { IfOk result (IsModel arch.now.models) }
    ensures refused { IfErr result (λ e. (e ≡ OutOfMemory)
        ⊎ FileIsRefused arch.now.models bytes.now e) }
{
    model_law();
    arch.law();
    if bytes.len() >= TOO_LONG {
        return Err(BlifError::OutOfMemory);
    }
    let models = BoxModels::new(alloc, arch.models.as_slice())?;
    read_model(alloc, bytes, &models)
}
