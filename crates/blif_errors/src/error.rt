ghost use Rattle.std.specs.Prelude.{◌≡◌};
ghost use Rattle.blif_errors.specs.declared.error.BlifError.TheVariants.{OutOfMemory};

use sqlite_items::Items;
use std::alloc::{AllocError, AllocFailed};
use thiserror::Error;
use vtr_base::{Place, Text};

/// Why a file gives no netlist. 41, 42, 44 to 46, 48 and 49 come in the order of the lines; 40, 43
/// and 47 come after all lines, in this order.
#[derive(Debug, Drop, Error)]
pub enum BlifError {
    /// 40: there are more than 65,536 atoms.
    #[error("there are more than 65536 atoms")]
    Limit,
    /// 41: a line isn't of the format, or an atom's name stood before. The place is that of the
    /// line's first word; where no line has a word, the one behind the last byte.
    #[error("a line is broken")]
    BadLine { place: Place },
    /// 42: a net that is driven is driven again.
    #[error("a net is driven again")]
    TwoDrivers { net: Text },
    /// 43: the first net without a driver.
    #[error("a net has no driver")]
    NoDriver { net: Text },
    /// 44: a `.names` has more than 8 inputs; its output.
    #[error("a cover has more than 8 inputs")]
    WideNames { net: Text },
    /// 45: the rows of a cover have different outputs; the output of its `.names`.
    #[error("a cover mixes outputs")]
    MixedCover { net: Text },
    /// 46: a `.latch` with an output isn't `re`, or has no control; its output.
    #[error("a latch is of another kind")]
    LatchKind { net: Text },
    /// 47: LUTs of which each feeds the next, and the last one the first.
    #[error("there is a cycle of LUTs")]
    CombLoop { atoms: Items<Text> },
    /// 48: a word that begins with a dot isn't read.
    #[error("a word isn't supported")]
    Unsupported { word: Text },
    /// 49: a box is of no model of the architecture.
    #[error("a model is unknown")]
    UnknownModel { name: Text },
    #[error("out of memory")]
    OutOfMemory,
}

impl From<AllocError> for BlifError {
    ghost from_gives = { λ _ e. e ≡ OutOfMemory };

    fn from(_e: AllocError) -> BlifError {
        BlifError::OutOfMemory
    }
}

impl<T: Drop> From<AllocFailed<T>> for BlifError {
    ghost from_gives = { λ _ e. e ≡ OutOfMemory };

    fn from(_e: AllocFailed<T>) -> BlifError {
        BlifError::OutOfMemory
    }
}
