//! Reads a file of FASM text and tells how many bits it sets. It is what bench/fasm times.
#![tactic(auto)]

use anyhow::{Context, Result, bail};
use fasm_text::read_fasm;
use std::{env, fs};

fn main(rt: HostRuntime) -> Result<()> {
    let mut args = env::args(&rt)?;
    let _program = args.next();
    let Some(path) = args.next() else {
        bail!("give a file of FASM text");
    };
    let bytes = fs::read(&rt, path.as_str()).context(format_args!("reading {path}"))?;
    let set = read_fasm(rt.alloc(), bytes.as_slice())?;
    let count = set.len();
    println!(rt; "{count} bits")?;
    Ok(())
}
