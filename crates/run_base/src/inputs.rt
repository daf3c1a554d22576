ghost use Rattle.std.specs.Prelude.{◌≡◌, ◌≤◌, IfOk, IfErr};
ghost use Rattle.run_base.specs.Worlds.{world, Fetched};
ghost use Rattle.run_base.specs.Stops.{StopsAtFile, NoneBad, IsStopFor};

use crate::stop::{Stop, outside, refused};
use std::alloc::Global;
use vtr_base::{Shelf, ShelfError};

/// How many bytes an input file may have.
const ROOM: u64 = 67_108_864;

/// Fetches an input file.
pub fn fetch<S: Shelf>(alloc: Global, file: &str, shelf: &mut S) -> Result<Vec<u8>, Stop>
    ensures held { S.files shelf.new ≡ S.files shelf.old }
    ensures count { S.faults shelf.old ≤ S.faults shelf.new }
    ensures fetched { let w = world (S.files shelf.old) (S.faults shelf.old) (S.faults shelf.new) in
        IfOk result (λ bytes. Fetched w file.now bytes.items) }
    ensures stopped { let w = world (S.files shelf.old) (S.faults shelf.old) (S.faults shelf.new) in
        IfErr result (StopsAtFile w (Unit {0}) file.now NoneBad) }
{
    let mut bytes = Vec::new(alloc);
    match shelf.fetch(file, ROOM, &mut bytes) {
        Ok(()) => Ok(bytes),
        Err(error) => Err(unfetched(alloc, file, error)),
    }
}

/// The stop at a file that the shelf didn't give.
pub(crate) fn unfetched(alloc: Global, file: &str, error: ShelfError) -> Stop
    ensures { IsStopFor file.now error result }
{
    match error {
        ShelfError::Missing => refused(alloc, file, "7 Missing", ""),
        ShelfError::TooLong => refused(alloc, file, "4 TooLong", ""),
        ShelfError::Failed => outside(alloc, file),
        ShelfError::OutOfMemory => Stop::Memory,
    }
}
