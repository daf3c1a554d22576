//! Runs the commands over shelves and sinks in memory, as stored cases say, and tells what differs
//! from what each case wants. The cases are read from standard input, and the sample files that
//! they copy from the folder in which the program runs.
#![tactic(auto)]

mod case;
mod check;
mod parse;
mod table;
mod text;

use anyhow::{Context, Result, bail};
use case::Case;
use check::differences;
use parse::Parser;
use std::io::{BufRead, BufReader};

fn main(rt: HostRuntime) -> Result<()> {
    let mut parser = Parser::new(rt.alloc());
    let mut count = 0u64;
    let mut failed = 0u64;
    let reader = BufReader::new(rt.alloc(), rt.reader())?;
    for line in reader.lines(rt.alloc()) {
        let line = line.context("reading the cases")?;
        if let Some(case) = parser.line(&rt, line.as_str())? {
            count = count.saturating_add(1);
            failed = failed.saturating_add(told(&rt, &case)?);
        }
    }
    if let Some(case) = parser.into_case() {
        count = count.saturating_add(1);
        failed = failed.saturating_add(told(&rt, &case)?);
    }
    println!(rt; "{count} cases, {failed} differ")?;
    if failed > 0 {
        bail!("some cases differ");
    }
    Ok(())
}

/// Runs a case and prints what differs; 1 where something does.
fn told(rt: &(impl Print + AllocGlobal), case: &Case) -> Result<u64> {
    let lines = differences(rt.alloc(), case)?;
    if lines.is_empty() {
        return Ok(0);
    }
    let name = case.name.as_str();
    let number = case.line;
    println!(rt; "case {name} (line {number}):")?;
    for line in lines.iter() {
        println!(rt; "  {line}")?;
    }
    Ok(1)
}
