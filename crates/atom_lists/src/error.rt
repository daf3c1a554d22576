use std::alloc::{AllocError, AllocFailed};
use thiserror::Error;

/// Why some atoms are no task. Entries are counted from 0.
#[derive(Clone, Copy, Debug, PartialEq, Eq, Drop, Error)]
pub enum TaskError {
    /// 61: an entry is no atom of the netlist.
    #[error("entry {place} is no atom")]
    NoSuchAtom { place: u32 },
    /// 62: an entry is the atom of an earlier one.
    #[error("entry {place} is an atom that an earlier entry is")]
    Twice { place: u32 },
    /// 65: there are more than 4,096 entries.
    #[error("more than 4096 atoms")]
    TooManyAtoms,
    #[error("out of memory")]
    OutOfMemory,
}

impl<T: Drop> From<AllocFailed<T>> for TaskError {
    ghost use Rattle.std.specs.Prelude.{◌≡◌};
    ghost use Rattle.atom_lists.specs.declared.error.TaskError.TheVariants.{OutOfMemory};

    ghost from_gives = { λ _ e. e ≡ OutOfMemory };

    fn from(_e: AllocFailed<T>) -> TaskError {
        TaskError::OutOfMemory
    }
}

impl From<AllocError> for TaskError {
    ghost use Rattle.std.specs.Prelude.{◌≡◌};
    ghost use Rattle.atom_lists.specs.declared.error.TaskError.TheVariants.{OutOfMemory};

    ghost from_gives = { λ _ e. e ≡ OutOfMemory };

    fn from(_e: AllocError) -> TaskError {
        TaskError::OutOfMemory
    }
}
