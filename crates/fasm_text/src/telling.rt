ghost use Rattle.fasm_text.specs.Telling.{fasm_error_text, is_want_of_memory};

use crate::FasmError;
use std::alloc::AllocError;
use tell::{Tell, put_number};
use vtr_base::Text;

impl Tell for FasmError {
    ghost told = { fasm_error_text };

    ghost is_short = { is_want_of_memory };

    fn tell(&self, text: &mut Text) -> Result<(), AllocError> {
        match self {
            FasmError::BadFasm { line } => put_number(text, "106 BadFasm ", u64::from(*line)),
            FasmError::ValueWide { line } => put_number(text, "107 ValueWide ", u64::from(*line)),
            FasmError::OutOfMemory => text.push_str("memory"),
        }
    }

    fn is_short_of_memory(&self) -> bool {
        matches!(self, FasmError::OutOfMemory)
    }
}
