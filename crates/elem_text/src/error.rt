ghost use Rattle.elem_text.specs.declared.error.ElemError.TheVariants.{OutOfMemory};
ghost use Rattle.std.specs.Prelude.{◌≡◌};

use std::alloc::AllocError;
use thiserror::Error;
use vtr_base::Place;

/// Why a file has no element.
#[derive(Clone, Copy, Debug, PartialEq, Eq, Drop, Error)]
pub enum ElemError {
    /// The file is not UTF-8.
    #[error("the file is not UTF-8")]
    NotUtf8,
    /// An element opens at level 65, and everything before it is fine.
    #[error("elements are nested more than 64 deep")]
    Deep,
    /// The grammar fails. `place` is where the first failing piece begins, or the place behind the
    /// file's last byte where the file ends too early.
    #[error("the text is no element")]
    Broken { place: Place },
    #[error("out of memory")]
    OutOfMemory,
}

impl From<AllocError> for ElemError {
    ghost from_gives = { λ _ e. e ≡ OutOfMemory };

    fn from(_e: AllocError) -> ElemError {
        ElemError::OutOfMemory
    }
}
