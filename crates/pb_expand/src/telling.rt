ghost use Rattle.pb_expand.specs.Telling.{expand_text, is_want_of_memory};

use crate::ExpandError;
use std::alloc::AllocError;
use tell::{Tell, put_two};
use vtr_base::Text;

impl Tell for ExpandError {
    ghost told = { expand_text };

    ghost is_short = { is_want_of_memory };

    fn tell(&self, text: &mut Text) -> Result<(), AllocError> {
        match self {
            ExpandError::NoSuchPin { inter } => put_two(text, "21 NoSuchPin ", inter.as_str()),
            ExpandError::Width { inter } => put_two(text, "22 Width ", inter.as_str()),
            ExpandError::WideMux { inter } => put_two(text, "23 WideMux ", inter.as_str()),
            ExpandError::TooMany => text.push_str("24 TooMany"),
            ExpandError::OutOfMemory => text.push_str("memory"),
        }
    }

    fn is_short_of_memory(&self) -> bool {
        matches!(self, ExpandError::OutOfMemory)
    }
}
