ghost use Rattle.std.specs.Prelude.{◌≡◌, ◌++◌, OnOk};
ghost use Rattle.arch_files.specs.Telling.{arch_text, limit_text, is_want_of_memory};

use crate::ArchError;
use arch_rules::LimitKind;
use std::alloc::AllocError;
use tell::{Tell, put_named, put_pair, put_placed, put_two};
use vtr_base::Text;

impl Tell for ArchError {
    ghost told = { arch_text };

    ghost is_short = { is_want_of_memory };

    fn tell(&self, text: &mut Text) -> Result<(), AllocError> {
        match self {
            ArchError::Broken { place } => put_placed(text, "1 Broken ", *place),
            ArchError::Deep => text.push_str("2 Deep"),
            ArchError::NotUtf8 => text.push_str("3 NotUtf8"),
            ArchError::UnknownElement { name, place } => {
                put_named(text, "11 UnknownElement ", name.as_str(), *place)
            }
            ArchError::MissingAttr { name, place } => {
                put_named(text, "12 MissingAttr ", name.as_str(), *place)
            }
            ArchError::BadNumber { place } => put_placed(text, "13 BadNumber ", *place),
            ArchError::SameName { name, place } => {
                put_named(text, "14 SameName ", name.as_str(), *place)
            }
            ArchError::Unsupported { what, place } => {
                put_named(text, "15 Unsupported ", what.as_str(), *place)
            }
            ArchError::Limit { which, place } => {
                put_named(text, "16 Limit ", limit_name(*which), *place)
            }
            ArchError::SitePorts { tile, site } => {
                put_pair(text, "17 SitePorts ", tile.as_str(), site.as_str())
            }
            ArchError::NoSuchBlock { name } => put_two(text, "18 NoSuchBlock ", name.as_str()),
            ArchError::UnknownModel { name } => put_two(text, "19 UnknownModel ", name.as_str()),
            ArchError::OutOfMemory => text.push_str("memory"),
        }
    }

    fn is_short_of_memory(&self) -> bool {
        matches!(self, ArchError::OutOfMemory)
    }
}

/// The word of a limit.
fn limit_name(which: LimitKind) -> &'static str
    ensures { result.now ≡ limit_text which }
{
    match which {
        LimitKind::Inputs => "inputs",
        LimitKind::NumPins => "num_pins",
        LimitKind::NumPb => "num_pb",
        LimitKind::Capacity => "capacity",
    }
}
