ghost use Rattle.std.specs.Prelude.{◌≡◌, ◌<◌, ◌+◌, ◌^◌, IfOk};
ghost use Rattle.run_base.specs.Worlds.{shown};
ghost use Rattle.run_base.specs.Prints.{words_text, memory_text, stop_text, IsSaidOf, Puts};

use crate::{Answer, Status, Stop};
use std::alloc::{AllocError, Global};
use vtr_base::{Sink, put_number};

/// The line of the first word that can't stand: its place, counted from 1.
pub fn words_line(alloc: Global, place: usize) -> Result<Vec<u8>, AllocError>
    requires { place + 1 < 2 ^ 64 }
    ensures { IfOk result (λ text. text.items ≡ words_text place) }
{
    let mut text = Vec::from_slice(alloc, b"words ")?;
    put_number(&mut text, place as u64 + 1)?;
    text.push(b'\n')?;
    Ok(text)
}

/// The line of a run that ran out of memory, which is made without any.
pub fn memory_line() -> &'static [u8]
    ensures { result.now ≡ memory_text }
{
    b"memory\n"
}

/// What a run says: its answer, or the status and the line of its stop.
pub fn said(alloc: Global, outcome: Result<Answer, Stop>) -> Result<Answer, AllocError>
    ensures { IfOk result (IsSaidOf outcome) }
{
    match outcome {
        Ok(answer) => Ok(answer),
        Err(stop) => {
            let text = stop_line(alloc, &stop)?;
            let status = stop.status();
            Ok(Answer { status, text })
        }
    }
}

/// The line that says why a run stopped.
fn stop_line(alloc: Global, stop: &Stop) -> Result<Vec<u8>, AllocError>
    ensures { IfOk result (λ text. text.items ≡ stop_text stop.now) }
{
    let mut text = Vec::new(alloc);
    match stop {
        Stop::Refused { file, why } => {
            text.extend_from_slice(file.as_bytes())?;
            text.extend_from_slice(b": refused ")?;
            text.extend_from_slice(why.as_bytes())?;
            text.push(b'\n')?;
            Ok(text)
        }
        Stop::Outside { file } => {
            text.extend_from_slice(b"outside ")?;
            text.extend_from_slice(file.as_bytes())?;
            text.push(b'\n')?;
            Ok(text)
        }
        Stop::Memory => {
            text.extend_from_slice(b"memory\n")?;
            Ok(text)
        }
    }
}

/// Prints the text of a status, and gives the status of the run.
pub fn print<K: Sink>(out: &mut K, text: &[u8], status: Status) -> Status
    ensures puts { Puts (shown (K.bytes out.old) (K.bytes out.new) (K.faults out.old)
        (K.faults out.new)) text.now status result }
    ensures beside { K.beside out.new ≡ K.beside out.old }
{
    match out.put(text) {
        Ok(()) => status,
        Err(_) => Status::Outside,
    }
}
