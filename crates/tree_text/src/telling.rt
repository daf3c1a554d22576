ghost use Rattle.tree_text.specs.Telling.{tree_error_text, is_want_of_memory};

use crate::TreeError;
use std::alloc::AllocError;
use tell::{Tell, put_number};
use vtr_base::Text;

impl Tell for TreeError {
    ghost told = { tree_error_text };

    ghost is_short = { is_want_of_memory };

    fn tell(&self, text: &mut Text) -> Result<(), AllocError> {
        match self {
            TreeError::BadTree { line } => put_number(text, "63 BadTree ", u64::from(*line)),
            TreeError::TreeShape { line } => put_number(text, "64 TreeShape ", u64::from(*line)),
            TreeError::OutOfMemory => text.push_str("memory"),
        }
    }

    fn is_short_of_memory(&self) -> bool {
        matches!(self, TreeError::OutOfMemory)
    }
}
