ghost use Rattle.std.specs.Prelude.{◌≡◌, ◌≤◌, OnOk, OnErr, IfErr};
ghost use Rattle.vtr_base.specs.Outside.{WhereKnown, IsOnShelf, AppendsPart, appended};
ghost use Rattle.run_base.specs.Worlds.{World, world};
ghost use Rattle.run_base.specs.Outputs.{wrote, WrotePart, change};
ghost use Rattle.run_base.specs.Stops.{StopsAtOutput};

use crate::pieces::{OutputText, PutError};
use crate::stop::{Stop, outside};
use shelf_kit::ShelfSink;
use std::alloc::Global;
use vtr_base::{Shelf, ShelfError};

/// Writes an output file: begins it, and puts the text piece by piece into a sink over it. Where
/// the shelf failed or memory ran out, the file is as it was, or it has a front of the text.
pub fn write_output<W: OutputText, S: Shelf>(
    alloc: Global,
    file: &str,
    text: &W,
    shelf: &mut S,
) -> Result<(), Stop>
    ensures count { OnOk result (S.faults shelf.old ≤ S.faults shelf.new) }
    ensures wrote { OnOk result
        (S.files shelf.new ≡ wrote file.now (W.text text.now) (S.files shelf.old)) }
    ensures part { OnErr result
        (WrotePart file.now (W.text text.now) (S.files shelf.old) (S.files shelf.new)) }
    ensures stopped { let w = change (S.files shelf.old) (S.files shelf.new) (S.faults shelf.old)
        (S.faults shelf.new) in IfErr result (StopsAtOutput w (Unit {0}) file.now) }
{
    match shelf.begin(file) {
        Ok(()) => append_output(alloc, file, text, shelf),
        Err(ShelfError::Failed) => Err(outside(alloc, file)),
        Err(_) => Err(Stop::Memory),
    }
}

/// Puts the text into a sink over a file that is begun.
fn append_output<W: OutputText, S: Shelf>(
    alloc: Global,
    file: &str,
    text: &W,
    shelf: &mut S,
) -> Result<(), Stop>
    requires { WhereKnown (S.files shelf.old) (λ m. IsOnShelf m file.now) }
    ensures count { OnOk result (S.faults shelf.old ≤ S.faults shelf.new) }
    ensures ok { OnOk result
        (S.files shelf.new ≡ appended file.now (W.text text.now) (S.files shelf.old)) }
    ensures part { OnErr result
        (AppendsPart file.now (W.text text.now) (S.files shelf.old) (S.files shelf.new)) }
    ensures stopped { let w = change (S.files shelf.old) (S.files shelf.new) (S.faults shelf.old)
        (S.faults shelf.new) in IfErr result (StopsAtOutput w (Unit {0}) file.now) }
{
    let mut sink = ShelfSink::on(shelf, file);
    let put = text.put_on(alloc, &mut sink);
    if sink.short_of_memory() {
        return Err(Stop::Memory);
    }
    match put {
        Ok(()) => Ok(()),
        Err(PutError::Sink) => Err(outside(alloc, file)),
        Err(PutError::Memory) => Err(Stop::Memory),
    }
}
