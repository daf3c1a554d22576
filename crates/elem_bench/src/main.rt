//! Reads a file of element text, as the file crates do, and tells how many children its root has.
//! It is what bench/elements times.
#![tactic(auto)]

use anyhow::{Context, Result, bail};
use elem_text::read_elems;
use std::{env, fs};

fn main(rt: HostRuntime) -> Result<()> {
    let mut args = env::args(&rt)?;
    let _program = args.next();
    let Some(path) = args.next() else {
        bail!("give a file of element text");
    };
    let bytes = fs::read(&rt, path.as_str()).context(format_args!("reading {path}"))?;
    let root = read_elems(rt.alloc(), bytes.as_slice())?;
    let count = root.kids.len();
    println!(rt; "{count} children")?;
    Ok(())
}
