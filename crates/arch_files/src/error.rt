ghost use Rattle.std.specs.Prelude.{◌≡◌};
ghost use Rattle.arch_files.specs.Files.{error_of_elem, error_of_rule, error_of_link};
ghost use Rattle.arch_files.specs.declared.error.ArchError.TheVariants.{OutOfMemory};

use arch_links::LinkError;
use arch_rules::{LimitKind, RuleError};
use elem_text::ElemError;
use std::alloc::AllocError;
use thiserror::Error;
use vtr_base::{Place, Text};

/// Why a file gives no architecture: the first rule that it breaks. Its elements are looked at in
/// the order in which they begin in the file; the rules that tie its parts together come after all
/// others. A place is that of the element at which the rule fails.
#[derive(Debug, Drop, Error)]
pub enum ArchError {
    /// 1: the bytes are no element. The place is that of the first failing piece, or the one behind
    /// the last byte where the file ends too early.
    #[error("the text is no element")]
    Broken { place: Place },
    /// 2: an element opens at level 65.
    #[error("elements are nested more than 64 deep")]
    Deep,
    /// 3: the bytes are not UTF-8.
    #[error("the file is not UTF-8")]
    NotUtf8,
    /// 11: an element stands in a pb_type, a mode, an interconnect or one of its kinds that is
    /// neither read nor known to be passed over.
    #[error("an element isn't known there")]
    UnknownElement { name: Text, place: Place },
    /// 12: a required attribute isn't there. `name` is the attribute's.
    #[error("an attribute is missing")]
    MissingAttr { name: Text, place: Place },
    /// 13: a number isn't decimal digits in its range, or a name has a character that it may not
    /// have.
    #[error("a number or a name is not of its form")]
    BadNumber { place: Place },
    /// 14: two siblings of one sort have this name, or a child has its parent's.
    #[error("a name stands twice")]
    SameName { name: Text, place: Place },
    /// 15: a form that is left out. `what` is the name of the element at which it stands.
    #[error("a form is not supported")]
    Unsupported { what: Text, place: Place },
    /// 16: a limit is passed.
    #[error("a limit is passed")]
    Limit { which: LimitKind, place: Place },
    /// 17: the ports of a tile's site differ from the tile's. `site` is the name of its block type.
    #[error("the ports of a site are not those of its tile")]
    SitePorts { tile: Text, site: Text },
    /// 18: a site names no block type.
    #[error("a site names no block type")]
    NoSuchBlock { name: Text },
    /// 19: a box names no model.
    #[error("a leaf names no model")]
    UnknownModel { name: Text },
    #[error("out of memory")]
    OutOfMemory,
}

impl From<AllocError> for ArchError {
    ghost from_gives = { λ _ e. e ≡ OutOfMemory };

    fn from(_e: AllocError) -> ArchError {
        ArchError::OutOfMemory
    }
}

impl From<ElemError> for ArchError {
    ghost from_gives = { λ e told. told ≡ error_of_elem e };

    fn from(e: ElemError) -> ArchError {
        match e {
            ElemError::NotUtf8 => ArchError::NotUtf8,
            ElemError::Deep => ArchError::Deep,
            ElemError::Broken { place } => ArchError::Broken { place },
            ElemError::OutOfMemory => ArchError::OutOfMemory,
        }
    }
}

impl From<RuleError> for ArchError {
    ghost from_gives = { λ e told. told ≡ error_of_rule e };

    fn from(e: RuleError) -> ArchError {
        match e {
            RuleError::UnknownElement { name, place } => ArchError::UnknownElement { name, place },
            RuleError::MissingAttr { name, place } => ArchError::MissingAttr { name, place },
            RuleError::BadNumber { place } => ArchError::BadNumber { place },
            RuleError::SameName { name, place } => ArchError::SameName { name, place },
            RuleError::Unsupported { what, place } => ArchError::Unsupported { what, place },
            RuleError::Limit { which, place } => ArchError::Limit { which, place },
            RuleError::OutOfMemory => ArchError::OutOfMemory,
        }
    }
}

impl From<LinkError> for ArchError {
    ghost from_gives = { λ e told. told ≡ error_of_link e };

    fn from(e: LinkError) -> ArchError {
        match e {
            LinkError::SitePorts { tile, site } => ArchError::SitePorts { tile, site },
            LinkError::NoSuchBlock { name } => ArchError::NoSuchBlock { name },
            LinkError::UnknownModel { name } => ArchError::UnknownModel { name },
            LinkError::OutOfMemory => ArchError::OutOfMemory,
        }
    }
}
