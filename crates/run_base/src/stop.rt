ghost use Rattle.std.specs.Prelude.{◌≡◌, ◌++◌, false};
ghost use Rattle.run_base.specs.Stops.{IsRefusedBy, IsOutsideAt};

use crate::Status;
use std::alloc::{AllocError, AllocFailed, Global};
use tell::Tell;
use vtr_base::Text;

/// Why a run stops before its answer.
#[derive(Debug, Drop)]
pub enum Stop {
    /// A file was refused. `why` is the refusal's number, name and fields.
    Refused { file: Text, why: Text },
    /// The shelf failed at this file.
    Outside { file: Text },
    /// Memory ran out.
    Memory,
}

impl Stop {
    ghost use Rattle.std.specs.Prelude.{◌≡◌};
    ghost use Rattle.run_base.specs.Statuses.{status_of};

    /// The status of a run that stops so.
    pub fn status(&self) -> Status
        ensures { result ≡ status_of self.now }
    {
        match self {
            Stop::Refused { .. } => Status::Refused,
            Stop::Outside { .. } => Status::Outside,
            Stop::Memory => Status::Memory,
        }
    }
}

/// The stop at a file that an error refuses, or for want of memory.
pub fn refused_by<E: Tell>(alloc: Global, file: &str, error: &E) -> Stop
    ensures { IsRefusedBy file.now (E.is_short error.now) (E.told error.now) result }
{
    if error.is_short_of_memory() {
        return Stop::Memory;
    }
    let mut why = Text::new(alloc);
    match error.tell(&mut why) {
        Ok(()) => stop_at(alloc, file, why),
        Err(_) => Stop::Memory,
    }
}

/// The stop at a file that is refused for a cause of one field, or of none where it is empty.
pub fn refused(alloc: Global, file: &str, heading: &str, field: &str) -> Stop
    ensures { IsRefusedBy file.now false (heading.now ++ field.now) result }
{
    let mut why = Text::new(alloc);
    match tell::put_two(&mut why, heading, field) {
        Ok(()) => stop_at(alloc, file, why),
        Err(_) => Stop::Memory,
    }
}

/// The stop at a file that is refused, of which this is told.
fn stop_at(alloc: Global, file: &str, why: Text) -> Stop
    ensures { IsRefusedBy file.now false why result }
{
    match Text::from_str(alloc, file) {
        Ok(file) => Stop::Refused { file, why },
        Err(_) => Stop::Memory,
    }
}

/// The stop at a file where the shelf failed.
pub(crate) fn outside(alloc: Global, file: &str) -> Stop
    ensures { IsOutsideAt file.now result }
{
    match Text::from_str(alloc, file) {
        Ok(file) => Stop::Outside { file },
        Err(_) => Stop::Memory,
    }
}

impl From<AllocError> for Stop {
    ghost use Rattle.std.specs.Prelude.{◌≡◌};
    ghost use Rattle.run_base.specs.declared.stop.Stop.TheVariants.{Memory};

    ghost from_gives = { λ _ e. e ≡ Memory };

    fn from(_e: AllocError) -> Stop {
        Stop::Memory
    }
}

impl<T: Drop> From<AllocFailed<T>> for Stop {
    ghost use Rattle.std.specs.Prelude.{◌≡◌};
    ghost use Rattle.run_base.specs.declared.stop.Stop.TheVariants.{Memory};

    ghost from_gives = { λ _ e. e ≡ Memory };

    fn from(_e: AllocFailed<T>) -> Stop {
        Stop::Memory
    }
}
