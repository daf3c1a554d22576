ghost use Rattle.std.specs.Prelude.{◌≡◌, IfOk};

use std::alloc::{AllocError, Global};
use std::collections::BTreeMap;

/// Files by their names.
pub type FileMap = BTreeMap<String, Vec<u8>>;

/// One run of a command: what it is given, and what it must answer.
#[derive(Drop)]
pub struct Case {
    pub name: String,
    /// The line of the stored cases at which the case begins.
    pub line: u64,
    pub words: Vec<String>,
    pub files: FileMap,
    /// The numbers of the shelf's calls that fail, from 0.
    pub shelf_fails: Vec<u64>,
    /// The numbers of the sink's calls that fail, from 0.
    pub sink_fails: Vec<u64>,
    /// The exit status that is wanted.
    pub status: u8,
    /// What is to be printed.
    pub printed: Vec<u8>,
    /// The files that are to be written, or changed. Every other file is to stay as it was.
    pub written: FileMap,
}

impl Case {
    pub fn new(alloc: Global, name: &str, line: u64) -> Result<Case, AllocError> {
        Ok(Case {
            name: String::from_str(alloc, name)?,
            line,
            words: Vec::new(alloc),
            files: BTreeMap::new(alloc),
            shelf_fails: Vec::new(alloc),
            sink_fails: Vec::new(alloc),
            status: 0,
            printed: Vec::new(alloc),
            written: BTreeMap::new(alloc),
        })
    }

    /// The same case, told at another line.
    pub fn at_line(&self, alloc: Global, line: u64) -> Result<Case, AllocError>
        ensures line { IfOk result (λ made. made.line ≡ line) }
        ensures status { IfOk result (λ made. made.status ≡ self.now.status) }
    {
        Ok(Case {
            name: self.name.clone()?,
            line,
            words: self.words.clone()?,
            files: copy_of(alloc, &self.files)?,
            shelf_fails: self.shelf_fails.clone()?,
            sink_fails: self.sink_fails.clone()?,
            status: self.status,
            printed: self.printed.clone()?,
            written: copy_of(alloc, &self.written)?,
        })
    }
}

/// The same files.
pub fn copy_of(alloc: Global, files: &FileMap) -> Result<FileMap, AllocError> {
    let mut copy = BTreeMap::new(alloc);
    for (name, bytes) in files.iter() {
        copy.insert(name.clone()?, bytes.clone()?)?;
    }
    Ok(copy)
}
