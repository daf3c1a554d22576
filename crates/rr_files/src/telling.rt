ghost use Rattle.std.specs.Prelude.{◌≡◌};
ghost use Rattle.rr_files.specs.Telling.{rr_text, limit_text, is_want_of_memory};

use crate::error::{RrError, RrLimit};
use std::alloc::AllocError;
use tell::{Tell, put_number, put_placed, put_two};
use vtr_base::Text;

impl Tell for RrError {
    ghost told = { rr_text };

    ghost is_short = { is_want_of_memory };

    fn tell(&self, text: &mut Text) -> Result<(), AllocError> {
        match self {
            RrError::Broken { place } => put_placed(text, "1 Broken ", *place),
            RrError::Deep => text.push_str("2 Deep"),
            RrError::NotUtf8 => text.push_str("3 NotUtf8"),
            RrError::Limit { which } => put_two(text, "30 Limit ", limit_name(*which)),
            RrError::BadNode { id } => put_number(text, "31 BadNode ", u64::from(*id)),
            RrError::BadEdge { index } => put_number(text, "32 BadEdge ", *index as u64),
            RrError::SwitchKind { id } => put_number(text, "33 SwitchKind ", u64::from(*id)),
            RrError::UnknownBlock { id } => put_number(text, "34 UnknownBlock ", u64::from(*id)),
            RrError::UnknownPin { text: pin } => put_two(text, "35 UnknownPin ", pin.as_str()),
            RrError::NodeWithoutPin { id } => {
                put_number(text, "36 NodeWithoutPin ", u64::from(*id))
            }
            RrError::BadGrid { x, y } => {
                put_number(text, "37 BadGrid ", u64::from(*x))?;
                put_number(text, " ", u64::from(*y))
            }
            RrError::Layer => text.push_str("38 Layer"),
            RrError::BadItem { place } => put_placed(text, "39 BadItem ", *place),
            RrError::OutOfMemory => text.push_str("memory"),
        }
    }

    fn is_short_of_memory(&self) -> bool {
        matches!(self, RrError::OutOfMemory)
    }
}

/// The word of a limit.
fn limit_name(which: RrLimit) -> &'static str
    ensures { result.now ≡ limit_text which }
{
    match which {
        RrLimit::Capacity => "capacity",
    }
}
