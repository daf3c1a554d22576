ghost use Rattle.std.specs.Prelude.{◌≡◌, ◌≤◌, ◌<◌, ◌+◌, ◌⊎◌, ◌↔◌, [], ◌++◌, length, Some, None, OnOk, OnErr, IfOk, IsErr, IsErrOf, Contains, vec_len, vec_capacity};
ghost use Rattle.vtr_base.specs.Outside.{file, with_file, bytes_of, Rose, IsOnShelf, IsLongerOnShelf, AppendsPart};
ghost use Rattle.shelf_kit.specs.MapFiles.{files_of};
ghost use Rattle.shelf_kit.specs.Calls.{TakesCall, TakesPut};

use crate::file_map::FileMap;
use crate::plan::starts_failing;
use std::alloc::{AllocError, Global};
use std::collections::BTreeMap;
use vtr_base::{Shelf, ShelfError, Sink, SinkFailed};

/// A shelf in memory, with a plan of calls that fail. Its calls are numbered from 0, whatever
/// they ask for. A call whose number stands in `fails` fails and changes no file.
#[derive(Drop)]
pub struct MemShelf {
    pub files: FileMap,
    pub fails: Vec<u64>,
    pub calls: u64,
    pub faults: u64,
}

impl MemShelf {
    pub fn new(alloc: Global, files: BTreeMap<String, Vec<u8>>, fails: Vec<u64>) -> MemShelf
        ensures files { result.files ≡ files_of files }
        ensures fails { result.fails ≡ fails }
        ensures counts { (result.calls ≡ 0) × (result.faults ≡ 0) }
    {
        MemShelf {
            files: FileMap::new(alloc, files),
            fails,
            calls: 0,
            faults: 0,
        }
    }
}

impl Shelf for MemShelf {
    ghost files = { λ s. Some s.files };

    ghost faults = { λ s. s.faults };

    fn fetch(&mut self, name: &str, room: u64, into: &mut Vec<u8>) -> Result<(), ShelfError>
        ensures call { TakesCall self.old self.new result }
        ensures files_of { self.new.files ≡ self.old.files }
        ensures count { self.old.faults ≤ self.new.faults }
        ensures room { OnOk result (length into.new.items ≤ room) }
        ensures found { OnOk result (file self.old.files name.now ≡ Some into.new.items) }
        ensures nothing { OnErr result (into.new.items ≡ []) }
        ensures failed { IsErrOf result ShelfError.Failed → Rose self.old.faults self.new.faults }
        ensures missing { IsErrOf result ShelfError.Missing → file self.old.files name.now ≡ None }
        ensures too_long { IsErrOf result ShelfError.TooLong → IsLongerOnShelf self.old.files
            name.now
            room }

        // Want of memory is no answer where the file isn't files_of, or is too long.
        ensures unheld { file self.old.files name.now ≡ None → IsErrOf result ShelfError.Missing
            ⊎ IsErrOf result ShelfError.Failed }
        ensures longer { IsLongerOnShelf self.old.files name.now room → IsErrOf result
            ShelfError.TooLong ⊎ IsErrOf result ShelfError.Failed }
    {
        into.clear();
        if starts_failing(self.fails.as_slice(), &mut self.calls, &mut self.faults) {
            return Err(ShelfError::Failed);
        }
        self.files.fetch(name, room, into)
    }

    fn begin(&mut self, name: &str) -> Result<(), ShelfError>
        ensures call { TakesCall self.old self.new result }
        ensures count { self.old.faults ≤ self.new.faults }
        ensures ok { OnOk result (self.new.files ≡ with_file self.old.files name.now []) }
        ensures err { OnErr result (self.new.files ≡ self.old.files) }
        ensures failed { IsErrOf result ShelfError.Failed → Rose self.old.faults self.new.faults }
        ensures never_missing { IsErrOf result ShelfError.Missing → ⊥ }
        ensures never_long { IsErrOf result ShelfError.TooLong → ⊥ }
    {
        // First, so that a failing call leaves the file as it is.
        if starts_failing(self.fails.as_slice(), &mut self.calls, &mut self.faults) {
            return Err(ShelfError::Failed);
        }
        match self.files.begin(name) {
            Ok(()) => Ok(()),
            Err(_) => Err(ShelfError::OutOfMemory),
        }
    }

    fn append(&mut self, name: &str, piece: &[u8]) -> Result<(), ShelfError>
        requires { IsOnShelf self.old.files name.now }
        ensures call { TakesCall self.old self.new result }
        ensures count { self.old.faults ≤ self.new.faults }
        ensures ok { OnOk result (self.new.files ≡ with_file self.old.files name.now
            (bytes_of (file self.old.files name.now) ++ piece.now)) }
        ensures err { OnErr result (self.new.files ≡ self.old.files) }
        ensures failed { IsErrOf result ShelfError.Failed → Rose self.old.faults self.new.faults
            × AppendsPart name.now piece.now (Some self.old.files) (Some self.new.files) }
        ensures never_missing { IsErrOf result ShelfError.Missing → ⊥ }
        ensures never_long { IsErrOf result ShelfError.TooLong → ⊥ }
    {
        if starts_failing(self.fails.as_slice(), &mut self.calls, &mut self.faults) {
            return Err(ShelfError::Failed);
        }
        match self.files.append(name, piece) {
            Ok(()) => Ok(()),
            Err(_) => Err(ShelfError::OutOfMemory),
        }
    }
}

/// A sink in memory, with a plan of calls that fail. It has its buffer from the start, and a put
/// that doesn't fit into what is left of it fails. A failing put adds nothing.
#[derive(Drop)]
pub struct MemSink {
    pub bytes: Vec<u8>,
    pub fails: Vec<u64>,
    pub calls: u64,
    pub faults: u64,
}

impl MemSink {
    /// A sink with room for `room` bytes.
    pub fn with_room(alloc: Global, fails: Vec<u64>, room: usize) -> Result<MemSink, AllocError>
        ensures bytes { IfOk result (λ sink. sink.bytes.items ≡ []) }
        ensures room { IfOk result (λ sink. vec_capacity sink.bytes ≡ room) }
        ensures fails { IfOk result (λ sink. sink.fails ≡ fails) }
        ensures counts { IfOk result (λ sink. (sink.calls ≡ 0) × (sink.faults ≡ 0)) }
    {
        Ok(MemSink {
            bytes: Vec::with_capacity(alloc, room)?,
            fails,
            calls: 0,
            faults: 0,
        })
    }
}

impl Sink for MemSink {
    ghost bytes = { λ s. Some s.bytes.items };

    ghost beside = { λ _. None };

    ghost faults = { λ s. s.faults };

    fn put(&mut self, piece: &[u8]) -> Result<(), SinkFailed>
        ensures taken { TakesPut self.old self.new piece.now result }
        ensures count { self.old.faults ≤ self.new.faults }
        ensures ok { OnOk result (self.new.bytes.items ≡ self.old.bytes.items ++ piece.now) }
        ensures failed { OnErr result (Rose self.old.faults self.new.faults) }
    {
        if starts_failing(self.fails.as_slice(), &mut self.calls, &mut self.faults) {
            return Err(SinkFailed);
        }
        if piece.len() > self.bytes.capacity() - self.bytes.len() {
            self.faults = self.faults.saturating_add(1);
            return Err(SinkFailed);
        }
        push_all(&mut self.bytes, piece);
        Ok(())
    }
}

/// Adds the piece to bytes that have room for it, which takes no memory.
fn push_all(bytes: &mut Vec<u8>, piece: &[u8])
    requires { vec_len bytes.old + length piece.now ≤ vec_capacity bytes.old }
    ensures items { bytes.new.items ≡ bytes.old.items ++ piece.now }
    ensures room { vec_capacity bytes.new ≡ vec_capacity bytes.old }
{
    for byte in piece {
        bytes.push_reserved(*byte);
    }
}
