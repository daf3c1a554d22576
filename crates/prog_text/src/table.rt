ghost use Rattle.std.specs.Prelude.{◌≡◌, ℕ, List, Some, None, cond, OnOk};
ghost use Rattle.std.specs.Str.{bytes_eq};
ghost use Rattle.prog_text.specs.Table.{numbered};

use std::alloc::{AllocError, Global};
use std::collections::HashMap;

/// Numbers by name.
#[derive(Drop)]
pub(crate) struct NameTable {
    numbers: HashMap<Vec<u8>, u32>,
}

impl NameTable {
    pub(crate) fn new(alloc: Global) -> NameTable
        ensures { (name : List ℕ) → numbered result.numbers name ≡ None }
    {
        NameTable {
            numbers: HashMap::new(alloc),
        }
    }

    /// Gives a name a number, which is a place in a list of fewer than 2^32 elements. A name that
    /// has one gets this in its place.
    pub(crate) fn put(&mut self, alloc: Global, name: &[u8], place: usize) -> Result<(), AllocError>
        ensures { OnOk result ((text : List ℕ) → numbered self.new.numbers text ≡ cond
            (bytes_eq name.now text) (Some place) (numbered self.old.numbers text)) }
    {
        let Ok(number) = u32::try_from(place) else {
            return Err(AllocError);
        };
        self.numbers.insert(Vec::from_slice(alloc, name)?, number)?;
        Ok(())
    }

    /// The number of a name.
    pub(crate) fn get(&self, name: &[u8]) -> Option<u32>
        ensures { result ≡ numbered self.now.numbers name.now }
    {
        self.numbers.get(name).copied()
    }
}
