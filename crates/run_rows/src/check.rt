use crate::case::{Case, copy_of};
use shelf_kit::{MemShelf, MemSink};
use std::alloc::{AllocError, Global};
use vtr_top::run;

/// What the sink has room for.
const ROOM: usize = 1_048_576;

/// Runs the case, and tells in lines what differs from what it wants.
pub fn differences(alloc: Global, case: &Case) -> Result<Vec<String>, AllocError> {
    let files = copy_of(alloc, &case.files)?;
    let mut shelf = MemShelf::new(alloc, files, case.shelf_fails.clone()?);
    let mut sink = MemSink::with_room(alloc, case.sink_fails.clone()?, ROOM)?;
    let status = run(alloc, case.words.as_slice(), &mut shelf, &mut sink);
    let mut told = Vec::new(alloc);
    let code = status.code();
    if code != case.status {
        let wanted = case.status;
        told.push(format!(in alloc; "status {code} in place of {wanted}")?)?;
    }
    if sink.bytes.as_slice() != case.printed.as_slice() {
        told.push(shown(alloc, "what was printed", sink.bytes.as_slice())?)?;
    }
    compare_files(alloc, case, &shelf, &mut told)?;
    Ok(told)
}

/// Each file that the case speaks of holds what it has to: what is to be written, or what it held.
fn compare_files(
    alloc: Global,
    case: &Case,
    shelf: &MemShelf,
    told: &mut Vec<String>,
) -> Result<(), AllocError> {
    for (name, bytes) in case.written.iter() {
        compare_file(alloc, shelf, name.as_str(), bytes.as_slice(), told)?;
    }
    for (name, bytes) in case.files.iter() {
        if case.written.get(name.as_str()).is_none() {
            compare_file(alloc, shelf, name.as_str(), bytes.as_slice(), told)?;
        }
    }
    Ok(())
}

fn compare_file(
    alloc: Global,
    shelf: &MemShelf,
    name: &str,
    wanted: &[u8],
    told: &mut Vec<String>,
) -> Result<(), AllocError> {
    match shelf.files.get(name) {
        Some(bytes) if bytes == wanted => {}
        Some(bytes) => told.push(shown(alloc, name, bytes)?)?,
        None => told.push(format!(in alloc; "{name} isn't there")?)?,
    }
    Ok(())
}

/// A name and the bytes found under it, as text.
fn shown(alloc: Global, name: &str, bytes: &[u8]) -> Result<String, AllocError> {
    match std::str::from_utf8(bytes) {
        Ok(text) => format!(in alloc; "{name}: {text:?}"),
        Err(_) => format!(in alloc; "{name}: bytes that aren't UTF-8"),
    }
}
