//! Reads FASM texts, as stored rows give them, and tells where what a text sets, or the refusal,
//! isn't what its row wants. In a row `| TEXT` is a line of the text, `= NAME BIT` a bit that it
//! sets, in order, and `! REFUSAL` what is told of it; an empty line ends the row. Then it
//! writes lines on a sink whose calls fail in turn.
#![tactic(auto)]

mod lines;
mod row;

use anyhow::{Context, Result, bail};
use lines::lines_over;
use row::Row;
use std::io::{BufRead, BufReader};

fn main(rt: HostRuntime) -> Result<()> {
    let mut row = Row::new(rt.alloc());
    let mut count = 0u64;
    let mut failed = 0u64;
    let reader = BufReader::new(rt.alloc(), rt.reader())?;
    for line in reader.lines(rt.alloc()) {
        let line = line.context("reading the rows")?;
        if !line.is_empty() {
            row.line(line.as_str())?;
            continue;
        }
        count = count.saturating_add(1);
        let answer = row.answer(rt.alloc())?;
        if answer.as_str() != row.wanted() {
            failed = failed.saturating_add(1);
            println!(rt; "row {count}: {answer}")?;
        }
        row = Row::new(rt.alloc());
    }
    println!(rt; "{count} rows, {failed} differ")?;
    for call in 0..4 {
        let told = lines_over(rt.alloc(), call)?;
        println!(rt; "call {call} of three lines fails: {told}")?;
    }
    if failed > 0 {
        bail!("some rows differ");
    }
    Ok(())
}
