ghost use Rattle.atom_lists.specs.Telling.{task_error_text, is_want_of_memory};

use crate::TaskError;
use std::alloc::AllocError;
use tell::{Tell, put_number};
use vtr_base::Text;

impl Tell for TaskError {
    ghost told = { task_error_text };

    ghost is_short = { is_want_of_memory };

    fn tell(&self, text: &mut Text) -> Result<(), AllocError> {
        match self {
            TaskError::NoSuchAtom { place } => {
                put_number(text, "61 NoSuchAtom ", u64::from(*place))
            }
            TaskError::Twice { place } => put_number(text, "62 Twice ", u64::from(*place)),
            TaskError::TooManyAtoms => text.push_str("65 TooManyAtoms"),
            TaskError::OutOfMemory => text.push_str("memory"),
        }
    }

    fn is_short_of_memory(&self) -> bool {
        matches!(self, TaskError::OutOfMemory)
    }
}
