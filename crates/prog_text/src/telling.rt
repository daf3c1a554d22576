ghost use Rattle.prog_text.specs.Telling.{prog_text, is_want_of_memory};

use crate::ProgError;
use std::alloc::AllocError;
use tell::{Tell, put_number};
use vtr_base::Text;

impl Tell for ProgError {
    ghost told = { prog_text };

    ghost is_short = { is_want_of_memory };

    fn tell(&self, text: &mut Text) -> Result<(), AllocError> {
        match self {
            ProgError::BadLine { line } => put_number(text, "51 BadLine ", u64::from(*line)),
            ProgError::NoSuchSite { line } => put_number(text, "52 NoSuchSite ", u64::from(*line)),
            ProgError::NoSuchChoice { line } => {
                put_number(text, "53 NoSuchChoice ", u64::from(*line))
            }
            ProgError::TwiceSet { line } => put_number(text, "54 TwiceSet ", u64::from(*line)),
            ProgError::OutOfMemory => text.push_str("memory"),
        }
    }

    fn is_short_of_memory(&self) -> bool {
        matches!(self, ProgError::OutOfMemory)
    }
}
