ghost use Rattle.std.specs.Prelude.{◌≡◌, ◌≤◌, ◌↔◌, [], ◌++◌, length, Some, None, OnOk, OnErr, IsOk, IsErrOf};
ghost use Rattle.vtr_base.specs.Outside.{file, with_file, bytes_of, IsOnShelf, IsLongerOnShelf};
ghost use Rattle.shelf_kit.specs.MapFiles.{files_of};

use crate::file_map::FileMap;
use std::alloc::Global;
use std::collections::BTreeMap;
use vtr_base::{Shelf, ShelfError, Sink, SinkFailed};

/// A shelf in memory that never fails. It tells its files.
#[derive(Drop)]
pub struct CalmShelf {
    pub files: FileMap,
}

impl CalmShelf {
    pub fn new(alloc: Global, files: BTreeMap<String, Vec<u8>>) -> CalmShelf
        ensures { result.files ≡ files_of files }
    {
        CalmShelf {
            files: FileMap::new(alloc, files),
        }
    }
}

impl Shelf for CalmShelf {
    ghost files = { λ s. Some s.files };

    ghost faults = { λ _. 0 };

    fn fetch(&mut self, name: &str, room: u64, into: &mut Vec<u8>) -> Result<(), ShelfError>
        ensures files_of { self.new.files ≡ self.old.files }
        ensures room { OnOk result (length into.new.items ≤ room) }
        ensures found { OnOk result (file self.old.files name.now ≡ Some into.new.items) }
        ensures nothing { OnErr result (into.new.items ≡ []) }
        ensures missing { IsErrOf result ShelfError.Missing ↔
            (file self.old.files name.now ≡ None) }
        ensures too_long { IsErrOf result ShelfError.TooLong ↔ IsLongerOnShelf self.old.files
            name.now
            room }
        ensures never_failed { IsErrOf result ShelfError.Failed → ⊥ }
    {
        self.files.fetch(name, room, into)
    }

    fn begin(&mut self, name: &str) -> Result<(), ShelfError>
        ensures ok { OnOk result (self.new.files ≡ with_file self.old.files name.now []) }
        ensures memory { OnErr result (IsErrOf result ShelfError.OutOfMemory × self.new.files
            ≡ self.old.files) }
    {
        match self.files.begin(name) {
            Ok(()) => Ok(()),
            Err(_) => Err(ShelfError::OutOfMemory),
        }
    }

    fn append(&mut self, name: &str, piece: &[u8]) -> Result<(), ShelfError>
        requires { IsOnShelf self.old.files name.now }
        ensures ok { OnOk result (self.new.files ≡ with_file self.old.files name.now
            (bytes_of (file self.old.files name.now) ++ piece.now)) }
        ensures memory { OnErr result (IsErrOf result ShelfError.OutOfMemory × self.new.files
            ≡ self.old.files) }
    {
        match self.files.append(name, piece) {
            Ok(()) => Ok(()),
            Err(_) => Err(ShelfError::OutOfMemory),
        }
    }
}

/// A sink that takes every piece and keeps none. It tells no bytes.
#[derive(Clone, Copy, Drop)]
pub struct QuietSink;

impl Sink for QuietSink {
    ghost bytes = { λ _. None };

    ghost beside = { λ _. None };

    ghost faults = { λ _. 0 };

    fn put(&mut self, _piece: &[u8]) -> Result<(), SinkFailed>
        ensures { IsOk result }
    {
        Ok(())
    }
}
