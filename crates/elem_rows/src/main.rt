//! Reads a file of element text and an architecture, and prints how the one is written and what the
//! other says. It takes the names of the two files.
#![tactic(auto)]

mod architecture;

use anyhow::{Context, Result, bail};
use arch_build::arch_said;
use architecture::put_architecture;
use elem_text::{Elem, read_elems, write_elem};
use std::alloc::{AllocError, Global};
use std::rt::Files;
use std::{env, fs, str};

fn main(rt: HostRuntime) -> Result<()> {
    let mut args = env::args(&rt)?;
    let _program = args.next();
    let elements = file(&rt, args.next())?;
    let parts = file(&rt, args.next())?;
    let mut out = String::new(rt.alloc());
    put_elements(rt.alloc(), &mut out, elements.as_slice())?;
    let root = read_elems(rt.alloc(), parts.as_slice())?;
    let said = arch_said(rt.alloc(), &root)?;
    put_architecture(rt.alloc(), &mut out, &said)?;
    print!(rt; "{out}")?;
    Ok(())
}

/// The bytes of the file that a word of the command line names.
fn file<R: Files + AllocGlobal>(rt: &R, word: Option<String>) -> Result<Vec<u8>> {
    let Some(path) = word else {
        bail!("give a file of element text and an architecture");
    };
    fs::read(rt, path.as_str()).context(format_args!("reading {path}"))
}

/// An element as text.
fn written(alloc: Global, elem: &Elem) -> Result<Vec<u8>, AllocError> {
    let mut text = Vec::new(alloc);
    write_elem(&mut text, elem)?;
    Ok(text)
}

/// Appends the root element as it is written. What was written has to be read as it was.
fn put_elements(alloc: Global, out: &mut String, bytes: &[u8]) -> Result<()> {
    let root = read_elems(alloc, bytes)?;
    let text = written(alloc, &root)?;
    let again = read_elems(alloc, text.as_slice())?;
    if written(alloc, &again)?.as_slice() != text.as_slice() {
        bail!("what was written is read as another element");
    }
    out.push_str(str::from_utf8(text.as_slice())?)?;
    out.push('\n')?;
    Ok(())
}
