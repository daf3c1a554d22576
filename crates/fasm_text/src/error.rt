use std::alloc::{AllocError, AllocFailed};
use thiserror::Error;

/// Why a FASM text was not read. Lines are counted from 1, empty ones too; the count stands still
/// at 4,294,967,295.
#[derive(Clone, Copy, Debug, PartialEq, Eq, Drop, Error)]
pub enum FasmError {
    /// 106: the line is neither empty nor a field with or without a value.
    #[error("line {line} is no line of FASM")]
    BadFasm { line: u32 },
    /// 107: the line sets a bit past its field.
    #[error("the value of line {line} is wider than its field")]
    ValueWide { line: u32 },
    #[error("out of memory")]
    OutOfMemory,
}

impl<T: Drop> From<AllocFailed<T>> for FasmError {
    ghost use Rattle.std.specs.Prelude.{◌≡◌};
    ghost use Rattle.fasm_text.specs.declared.error.FasmError.TheVariants.{OutOfMemory};

    ghost from_gives = { λ _ e. e ≡ OutOfMemory };

    fn from(_e: AllocFailed<T>) -> FasmError {
        FasmError::OutOfMemory
    }
}

impl From<AllocError> for FasmError {
    ghost use Rattle.std.specs.Prelude.{◌≡◌};
    ghost use Rattle.fasm_text.specs.declared.error.FasmError.TheVariants.{OutOfMemory};

    ghost from_gives = { λ _ e. e ≡ OutOfMemory };

    fn from(_e: AllocError) -> FasmError {
        FasmError::OutOfMemory
    }
}
