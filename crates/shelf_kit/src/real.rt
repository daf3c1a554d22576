ghost use Rattle.std.specs.Prelude.{◌≡◌, ◌≤◌, [], length, None, OnOk, OnErr, IsErrOf};

use std::fs::{self, OpenOptions};
use std::io::{self, ErrorKind, Read, Write};
use std::rt::Files;
use vtr_base::{Shelf, ShelfError, Sink, SinkFailed};

/// How many bytes one read asks for at most.
const CHUNK: usize = 16_384;

/// The files of the system, under the paths that are their names. It tells no content.
#[derive(Drop)]
pub struct RealShelf<R> {
    runtime: R,
    pub(crate) faults: u64,
}

impl<R: Files> RealShelf<R> {
    pub fn new(runtime: R) -> RealShelf<R>
        ensures runtime { result.runtime ≡ runtime }
        ensures faults { result.faults ≡ 0 }
    {
        RealShelf { runtime, faults: 0 }
    }
}

impl<R: Files> Shelf for RealShelf<R> {
    ghost files = { λ _. None };

    ghost faults = { λ s. s.faults };

    fn fetch(&mut self, name: &str, room: u64, into: &mut Vec<u8>) -> Result<(), ShelfError> {
        into.clear();
        let outcome = match fs::open(&self.runtime, name) {
            Ok(mut file) => read_to_end(&mut file, room, into),
            Err(error) => Err(refusal(&error)),
        };
        if let Err(error) = outcome {
            into.clear();
            if error == ShelfError::Failed {
                self.faults = self.faults.saturating_add(1);
            }
        }
        outcome
    }

    fn begin(&mut self, name: &str) -> Result<(), ShelfError> {
        match fs::create(&self.runtime, name) {
            Ok(_) => Ok(()),
            Err(_) => {
                self.faults = self.faults.saturating_add(1);
                Err(ShelfError::Failed)
            }
        }
    }

    fn append(&mut self, name: &str, piece: &[u8]) -> Result<(), ShelfError> {
        let written = match OpenOptions::new().append(true).open(&self.runtime, name) {
            Ok(mut file) => write_all(&mut file, piece),
            Err(_) => Err(SinkFailed),
        };
        match written {
            Ok(()) => Ok(()),
            Err(_) => {
                self.faults = self.faults.saturating_add(1);
                Err(ShelfError::Failed)
            }
        }
    }
}

/// Standard output. Each put has left the process when it returns. It tells no content.
#[derive(Drop)]
pub struct RealSink<R> {
    runtime: R,
    pub(crate) faults: u64,
}

impl<R: Print> RealSink<R> {
    pub fn new(runtime: R) -> RealSink<R>
        ensures runtime { result.runtime ≡ runtime }
        ensures faults { result.faults ≡ 0 }
    {
        RealSink { runtime, faults: 0 }
    }
}

impl<R: Print> Sink for RealSink<R> {
    ghost bytes = { λ _. None };

    ghost beside = { λ _. None };

    ghost faults = { λ s. s.faults };

    fn put(&mut self, piece: &[u8]) -> Result<(), SinkFailed> {
        match write_all(&mut io::writer(&self.runtime), piece) {
            Ok(()) => Ok(()),
            Err(error) => {
                self.faults = self.faults.saturating_add(1);
                Err(error)
            }
        }
    }
}

/// Why a file could not be opened for reading.
fn refusal(error: &io::Error) -> ShelfError
    ensures long { result ≡ ShelfError.TooLong → ⊥ }
{
    match error.kind() {
        ErrorKind::NotFound => ShelfError::Missing,
        _ => ShelfError::Failed,
    }
}

/// Reads to the end of the file, but at most one byte more than there is room for.
fn read_to_end<F: Read>(file: &mut F, room: u64, into: &mut Vec<u8>) -> Result<(), ShelfError>
    requires { into.old.items ≡ [] }
    ensures room { OnOk result (length into.new.items ≤ room) }
    ensures never_missing { IsErrOf result ShelfError.Missing → ⊥ }
{
    let mut chunk = [0u8; CHUNK];
    for _ in 0..u64::MAX {
        let left = room - into.len() as u64;
        let most = left.min(CHUNK as u64 - 1) as usize + 1;
        match file.read(&mut chunk[..most]) {
            Ok(0) => return Ok(()),
            Ok(count) => {
                if count as u64 > left {
                    return Err(ShelfError::TooLong);
                }
                if into.extend_from_slice(&chunk[..count]).is_err() {
                    return Err(ShelfError::OutOfMemory);
                }
            }
            Err(error) => {
                if error.kind() != ErrorKind::Interrupted {
                    return Err(ShelfError::Failed);
                }
            }
        }
    }
    Err(ShelfError::Failed)
}

/// Writes the whole piece. A write that takes nothing is a failure.
fn write_all<W: Write>(to: &mut W, piece: &[u8]) -> Result<(), SinkFailed> {
    let mut rest = piece;
    for _ in 0..u64::MAX {
        if rest.is_empty() {
            return Ok(());
        }
        match to.write(rest) {
            Ok(0) => return Err(SinkFailed),
            Ok(count) => rest = &rest[count..],
            Err(error) => {
                if error.kind() != ErrorKind::Interrupted {
                    return Err(SinkFailed);
                }
            }
        }
    }
    Err(SinkFailed)
}
