//! Reads BLIF files over an architecture, as stored rows give them, and tells where what a file says,
//! or its refusal, isn't what its row wants. `stored_rows` has the form of rows; these lines are
//! this program's own:
//!
//! - `arch FILE`: the models of this architecture stand under this row and all later ones
//! - `blif`, `blif FILE`: the text begins anew, with nothing or with this file
#![tactic(auto)]

mod facts;
mod rows;

use anyhow::{Context, Result, bail};
use rows::Rows;
use std::io::{BufRead, BufReader};
use stored_rows::Row;

fn main(rt: HostRuntime) -> Result<()> {
    let mut rows = Rows::new(rt.alloc());
    let mut count = 0u64;
    let mut failed = 0u64;
    let reader = BufReader::new(rt.alloc(), rt.reader())?;
    for line in reader.lines(rt.alloc()) {
        let line = line.context("reading the rows")?;
        if let Some(row) = rows.line(&rt, line.as_str())? {
            count = count.saturating_add(1);
            failed = failed.saturating_add(tried(&rt, &rows, &row)?);
        }
    }
    println!(rt; "{count} rows, {failed} differ")?;
    if failed > 0 {
        bail!("some rows differ");
    }
    Ok(())
}

/// Tries a row and prints all that is told where it isn't what is wanted; 1 then, and else 0.
fn tried(rt: &(impl Print + AllocGlobal), rows: &Rows, row: &Row) -> Result<u64> {
    let told = rows.told(rt.alloc(), row)?;
    let missing = row.missing(rt.alloc(), told.as_slice())?;
    if missing.is_empty() {
        return Ok(0);
    }
    let number = row.line;
    println!(rt; "line {number}:")?;
    for answer in missing.iter() {
        println!(rt; "  wanted {answer}")?;
    }
    for answer in told.iter() {
        println!(rt; "  told {answer}")?;
    }
    Ok(1)
}
