ghost use Rattle.std.specs.Prelude.{◌≡◌, IfOk};

use crate::case::Case;
use crate::text::{find, replace_first};
use anyhow::{Context, Result, bail};
use elem_text::place_after;
use std::alloc::{AllocError, Global};
use vtr_base::Place;

/// What stands between the parts of a row.
const ARROW: &str = " => ";

/// What stands at a place in a changed file that a refusal tells.
const MARK: &[u8] = b"@";

/// What the rows of a table change, each in the case as it stands without them.
#[derive(Drop)]
pub struct Table {
    /// The file of the case that they change.
    pub file: String,
    /// The text in it that a row of two parts replaces.
    pub old: String,
}

impl Table {
    /// Reads `FILE OLD`.
    pub fn of_line(alloc: Global, text: &str) -> Result<Table> {
        let (file, old) = text.split_once(' ').unwrap_or((text, ""));
        Ok(Table {
            file: String::from_str(alloc, file)?,
            old: String::from_str(alloc, old)?,
        })
    }

    /// The case that the row `NEW => PRINTED`, or `OLD => NEW => PRINTED`, makes of the template.
    pub fn row(&self, alloc: Global, template: &Case, line: u64, row: &str) -> Result<Case>
        ensures line { IfOk result (λ made. made.line ≡ line) }
        ensures status { IfOk result (λ made. made.status ≡ template.now.status) }
    {
        let (first, rest) = row.split_once(ARROW).context("a row has no =>")?;
        let (old, new, printed) = match rest.split_once(ARROW) {
            Some((new, printed)) => (first, new, printed),
            None => (self.old.as_str(), first, rest),
        };
        let mut changed = template.at_line(alloc, line)?;
        let Some(text) = changed.files.get_mut(self.file.as_str()) else {
            bail!("the case doesn't have the file of the table");
        };
        if !replace_first(text, old.as_bytes(), new.as_bytes())? {
            bail!("the text doesn't have what is to be replaced");
        }
        changed.printed.extend_from_slice(printed.as_bytes())?;
        changed.printed.push(b'\n')?;
        put_place(alloc, text, &mut changed.printed)?;
        Ok(changed)
    }
}

/// Takes the mark out of the text; a mark in what is printed becomes the place where it stood.
fn put_place(alloc: Global, text: &mut Vec<u8>, printed: &mut Vec<u8>) -> Result<(), AllocError> {
    let Some(at) = find(text.as_slice(), MARK) else {
        return Ok(());
    };
    let place = place_after(Place { line: 1, byte: 1 }, &text[..at]);
    let (line, byte) = (place.line, place.byte);
    let told = format!(in alloc; "{line}:{byte}")?;
    replace_first(text, MARK, b"")?;
    replace_first(printed, MARK, told.as_bytes())?;
    Ok(())
}
