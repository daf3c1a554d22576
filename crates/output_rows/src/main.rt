//! Writes an output file: over a shelf in memory, each call of which fails in turn, over the files
//! of the system, and over a shelf that never fails. It prints the status that a run would have,
//! and what the file holds then; and what a sink in memory takes that has little room.
#![tactic(auto)]

use anyhow::Result;
use run_base::{OutputText, PutError, Stop, Whole, fetch, fronts_of_pieces, write_output};
use shelf_kit::{CalmShelf, MemShelf, MemSink, RealShelf};
use std::alloc::Global;
use std::collections::BTreeMap;
use std::str;
use vtr_base::{Shelf, Sink};

/// What is written.
const TEXT: &[u8] = b"one\ntwo\n";

fn main(rt: HostRuntime) -> Result<()> {
    for call in 0..3 {
        let told = with_failing(rt.alloc(), call)?;
        println!(rt; "call {call} fails: {told}")?;
    }
    for call in 0..5 {
        let told = in_pieces(rt.alloc(), call)?;
        println!(rt; "call {call} of three pieces fails: {told}")?;
    }
    let mut shelf = RealShelf::new(&rt);
    let told = written_and_fetched(rt.alloc(), &mut shelf, "o", TEXT)?;
    println!(rt; "a real file: {told}")?;
    let long = vec![in rt.alloc(); b'5'; 40_000]?;
    let told = written_and_fetched(rt.alloc(), &mut shelf, "o", long.as_slice())?;
    println!(rt; "a real file of 40000 bytes: {} bytes told", told.len())?;
    let told = written_and_fetched(rt.alloc(), &mut shelf, "nowhere/o", TEXT)?;
    println!(rt; "in a folder that isn't there: {told}")?;
    let mut calm = CalmShelf::new(rt.alloc(), BTreeMap::new(rt.alloc()));
    let told = written_and_fetched(rt.alloc(), &mut calm, "o", TEXT)?;
    println!(rt; "a shelf that never fails: {told}")?;
    let told = with_little_room(rt.alloc())?;
    println!(rt; "a sink of five bytes: {told}")?;
    Ok(())
}

/// A piece, put three times.
struct Pieces<'t> {
    piece: &'t [u8],
}

impl<'t> OutputText for Pieces<'t> {
    ghost use Rattle.std.specs.Prelude.{◌++◌};

    ghost text = { λ t. t.piece.now ++ (t.piece.now ++ t.piece.now) };

    fn put_on<K: Sink>(&self, _alloc: Global, sink: &mut K) -> Result<(), PutError> {
        fronts_of_pieces();
        sink.put(self.piece)?;
        sink.put(self.piece)?;
        sink.put(self.piece)?;
        Ok(())
    }
}

/// What comes of printing four bytes thrice, where the sink has room for five, and its first call
/// fails.
fn with_little_room(alloc: Global) -> Result<String> {
    let mut sink = MemSink::with_room(alloc, vec![in alloc; 0]?, 5)?;
    let first = sink.put(b"one\n").is_ok();
    let second = sink.put(b"two\n").is_ok();
    let third = sink.put(b"ten\n").is_ok();
    let text = str::from_utf8(sink.bytes.as_slice())?;
    let faults = sink.faults;
    Ok(format!(in alloc; "{first} {second} {third}, {faults} faults, {text:?}")?)
}

/// What comes of writing where the call of this number fails. The file holds something before.
fn with_failing(alloc: Global, call: u64) -> Result<String> {
    written_over(alloc, call, &Whole { bytes: TEXT })
}

/// The same of a text of three pieces.
fn in_pieces(alloc: Global, call: u64) -> Result<String> {
    written_over(alloc, call, &Pieces { piece: b"ab" })
}

/// What comes of writing a text over a file, where the call of this number fails.
fn written_over<W: OutputText>(alloc: Global, call: u64, text: &W) -> Result<String> {
    let mut files = BTreeMap::new(alloc);
    files.insert(String::from_str(alloc, "o")?, b"old".to_vec(alloc)?)?;
    let mut shelf = MemShelf::new(alloc, files, vec![in alloc; call]?);
    let code = code_of(&write_output(alloc, "o", text, &mut shelf));
    let told = match shelf.files.get("o") {
        Some(bytes) => {
            let text = str::from_utf8(bytes)?;
            format!(in alloc; "status {code}, {text:?}")?
        }
        None => format!(in alloc; "status {code}, no file")?,
    };
    Ok(told)
}

/// What comes of writing a file and fetching it again.
fn written_and_fetched<S: Shelf>(
    alloc: Global,
    shelf: &mut S,
    file: &str,
    text: &[u8],
) -> Result<String> {
    let code = code_of(&write_output(alloc, file, &Whole { bytes: text }, shelf));
    match fetch(alloc, file, shelf) {
        Ok(bytes) => {
            let text = str::from_utf8(bytes.as_slice())?;
            Ok(format!(in alloc; "status {code}, {text:?}")?)
        }
        Err(stop) => {
            let after = stop.status().code();
            Ok(format!(in alloc; "status {code}, and {after} where it is fetched")?)
        }
    }
}

/// The status of a run that goes so far, as the system sees it.
fn code_of(outcome: &Result<(), Stop>) -> u8 {
    match outcome {
        Ok(()) => 0,
        Err(stop) => stop.status().code(),
    }
}
