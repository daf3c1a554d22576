//! The program: the words of the command line, the real files and the real output.
#![tactic(auto)]

use shelf_kit::{RealShelf, RealSink};
use std::process::ExitCode;
use std::{env, io};
use vtr_base::Sink;
use vtr_top::{Status, memory_line, run};

fn main(rt: HostRuntime) -> io::Result<ExitCode> {
    let mut out = RealSink::new(&rt);
    let status = match words(&rt) {
        Ok(words) => run(
            rt.alloc(),
            words.as_slice(),
            &mut RealShelf::new(&rt),
            &mut out,
        ),
        Err(error) if error.kind() == io::ErrorKind::OutOfMemory => without_memory(&mut out),
        Err(error) => return Err(error),
    };
    Ok(ExitCode::from(status.code()))
}

/// The words of the command line, without the program's name.
fn words(rt: &HostRuntime) -> io::Result<Vec<String>> {
    let mut words = Vec::new(rt.alloc());
    for word in env::args(rt)?.skip(1) {
        words.push(word)?;
    }
    Ok(words)
}

/// Says that memory ran out before there were words.
fn without_memory<K: Sink>(out: &mut K) -> Status {
    match out.put(memory_line()) {
        Ok(()) => Status::Memory,
        Err(_) => Status::Outside,
    }
}
