ghost use Rattle.std.specs.Prelude.{◌≡◌, ◌≤◌, ◌↔◌, [], ◌++◌, length, Some, None, OnOk, OnErr, IsErrOf, option_map};
ghost use Rattle.vtr_base.specs.Outside.{file, with_file, bytes_of, IsOnShelf, IsLongerOnShelf};
ghost use Rattle.shelf_kit.specs.MapFiles.{files_of};

use std::alloc::{AllocError, Global};
use std::collections::BTreeMap;
use std::marker::Model;
use vtr_base::ShelfError;

/// Files in memory, by name. Contracts see it as the finite map from names to bytes.
#[derive(Drop)]
pub struct FileMap {
    by_name: BTreeMap<String, Vec<u8>>,
    alloc: Global,
}

impl Model for FileMap {
    ghost use Rattle.std.specs.Coded.{coded_ℕ, coded_list};
    ghost use Rattle.std.specs.FinMap.{code};
    ghost use Rattle.vtr_base.specs.Outside.{Files};
    ghost use Rattle.shelf_kit.specs.MapFiles.{files_of};

    ghost Value = { Files };

    ghost coded = { code (coded_list coded_ℕ) (coded_list coded_ℕ) };

    ghost view = { λ s. files_of s.by_name };
}

impl FileMap {
    pub fn new(alloc: Global, by_name: BTreeMap<String, Vec<u8>>) -> FileMap
        ensures { result ≡ files_of by_name }
    {
        FileMap { by_name, alloc }
    }

    /// The bytes of the file of that name.
    pub fn get(&self, name: &str) -> Option<&[u8]>
        ensures { option_map (λ bytes. bytes.now) result ≡ file self.now name.now }
    {
        match self.by_name.get(name) {
            Some(bytes) => Some(bytes.as_slice()),
            None => None,
        }
    }

    /// Copies the whole file into `into`, whose old bytes are dropped. A file of more than `room`
    /// bytes is refused.
    pub fn fetch(&self, name: &str, room: u64, into: &mut Vec<u8>) -> Result<(), ShelfError>
        ensures found { OnOk result (file self.now name.now ≡ Some into.new.items) }
        ensures room { OnOk result (length into.new.items ≤ room) }
        ensures nothing { OnErr result (into.new.items ≡ []) }
        ensures missing { IsErrOf result ShelfError.Missing ↔ (file self.now name.now ≡ None) }
        ensures too_long { IsErrOf result ShelfError.TooLong ↔ IsLongerOnShelf self.now name.now
            room }
        ensures never_failed { IsErrOf result ShelfError.Failed → ⊥ }
    {
        into.clear();
        let Some(bytes) = self.get(name) else {
            return Err(ShelfError::Missing);
        };
        if bytes.len() as u64 > room {
            return Err(ShelfError::TooLong);
        }
        match into.extend_from_slice(bytes) {
            Ok(()) => Ok(()),
            Err(_) => Err(ShelfError::OutOfMemory),
        }
    }

    /// Leaves the name files_of with no bytes.
    pub fn begin(&mut self, name: &str) -> Result<(), AllocError>
        ensures ok { OnOk result (self.new ≡ with_file self.old name.now []) }
        ensures memory { OnErr result (self.new ≡ self.old) }
    {
        let key = String::from_str(self.alloc, name)?;
        self.by_name.insert(key, Vec::new(self.alloc))?;
        Ok(())
    }

    /// Adds the piece to the end of a file that is files_of.
    pub fn append(&mut self, name: &str, piece: &[u8]) -> Result<(), AllocError>
        requires { IsOnShelf self.old name.now }
        ensures ok { OnOk result (self.new ≡ with_file self.old name.now
            (bytes_of (file self.old name.now) ++ piece.now)) }
        ensures memory { OnErr result (self.new ≡ self.old) }
    {
        match self.by_name.get_mut(name) {
            Some(bytes) => bytes.extend_from_slice(piece),
            None => unreachable!(),
        }
    }
}
