ghost use Rattle.std.specs.Prelude.{◌≡◌, ◌⊎◌, map};
ghost use Rattle.meta_block.specs.declared.error.MetaError.TheVariants.{OutOfMemory};
ghost use Rattle.meta_block.specs.Ways.{way_text};
ghost use Rattle.meta_block.specs.Telling.{told};

use crate::way::way_name;
use meta_lines::LineError;
use std::alloc::{AllocError, AllocFailed, Global};
use thiserror::Error;
use vtr_base::Text;

/// Why the metadata of a block type was not read. `owner` is the names on the way to the owner,
/// joined by `/`, and `line` counts from 1 in the text of the meta.
#[derive(Debug, Drop, Error)]
pub enum MetaError {
    /// 101: the line doesn't have the form of its sort, or it is one too many.
    #[error("line {line} has no form of its metadata")]
    BadMetaLine { owner: Text, line: u32 },
    /// 102: there are more or fewer prefixes than instances.
    #[error("the number of prefixes isn't that of the instances")]
    PrefixCount { owner: Text },
    /// 103: the line names no input of the interconnect.
    #[error("line {line} names no input of the interconnect")]
    UnknownInput { owner: Text, line: u32 },
    /// 104: some LUT uses the line, and its table has another number of bits than the line's field.
    #[error("line {line} has a field of another width than a table of its LUTs")]
    LutWidth { owner: Text, line: u32 },
    /// 105: a name of the line is no feature's name.
    #[error("line {line} has a name that is no feature's name")]
    FeatureName { owner: Text, line: u32 },
    #[error("out of memory")]
    OutOfMemory,
}

impl From<AllocError> for MetaError {
    ghost from_gives = { λ _ e. e ≡ OutOfMemory };

    fn from(_e: AllocError) -> MetaError {
        MetaError::OutOfMemory
    }
}

impl<T: Drop> From<AllocFailed<T>> for MetaError {
    ghost from_gives = { λ _ e. e ≡ OutOfMemory };

    fn from(_e: AllocFailed<T>) -> MetaError {
        MetaError::OutOfMemory
    }
}

/// What is told of an owner whose text is refused; want of memory, where memory runs out.
pub(crate) fn owner_error(alloc: Global, way: &[&Text], e: LineError) -> MetaError
    ensures { (result ≡ OutOfMemory) ⊎ (result ≡ told (way_text (map (λ n. n.now) way.now)) e) }
{
    let Ok(owner) = way_name(alloc, way) else {
        return MetaError::OutOfMemory;
    };
    match e {
        LineError::BadLine { line } => MetaError::BadMetaLine { owner, line },
        LineError::PrefixCount => MetaError::PrefixCount { owner },
        LineError::UnknownInput { line } => MetaError::UnknownInput { owner, line },
        LineError::FeatureName { line } => MetaError::FeatureName { owner, line },
        LineError::OutOfMemory => MetaError::OutOfMemory,
    }
}
