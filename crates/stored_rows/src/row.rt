use anyhow::{Context, Result, bail};
use elem_text::place_after;
use std::alloc::{AllocError, Global};
use std::str;
use vtr_base::Place;

/// What stands between the parts of a `try`.
const ARROW: &str = " => ";

/// What stands at a place in a changed text that an answer tells.
const MARK: &str = "@";

/// A text, and what is to be told of it.
#[derive(Drop)]
pub struct Row {
    /// The line of the stored rows that ends it.
    pub line: u64,
    pub text: Vec<u8>,
    pub wanted: Vec<String>,
    /// Nothing but what is wanted is to be told.
    pub only: bool,
}

impl Row {
    /// The row of this text that a `try` says: `OLD => NEW => ANSWER ..`.
    pub(crate) fn of_try(alloc: Global, line: u64, text: &[u8], change: &str) -> Result<Row> {
        let mut parts = change.split(ARROW);
        let old = parts.next().unwrap_or("");
        let new = parts.next().context("a try has no =>")?;
        let changed = replaced(alloc, str::from_utf8(text)?, old, new)?;
        let mut wanted = Vec::new(alloc);
        let (text, place) = unmarked(alloc, changed.as_str())?;
        for answer in parts {
            wanted.push(answer.replacen(alloc, MARK, place.as_str(), 1)?)?;
        }
        Ok(Row {
            line,
            text: Vec::from_slice(alloc, text.as_bytes())?,
            wanted,
            only: false,
        })
    }

    /// What is wanted and isn't told, and, where nothing else may be told, how many answers should
    /// have been.
    pub fn missing(&self, alloc: Global, told: &[String]) -> Result<Vec<String>, AllocError> {
        let mut missing = Vec::new(alloc);
        for answer in self.wanted.iter() {
            if !told.iter().any(|other| other.as_str() == answer.as_str()) {
                missing.push(answer.clone()?)?;
            }
        }
        let count = self.wanted.len();
        if self.only && told.len() != count {
            missing.push(format!(in alloc; "{count} answers and no more")?)?;
        }
        Ok(missing)
    }
}

/// The text with another text in the first place of `old`, which has to be there.
pub(crate) fn replaced(alloc: Global, text: &str, old: &str, new: &str) -> Result<String> {
    if old.is_empty() || !text.contains(old) {
        bail!("the text doesn't have what is to be replaced");
    }
    Ok(text.replacen(alloc, old, new, 1)?)
}

/// The text without its mark, and the place where that stood, as an answer tells it.
fn unmarked(alloc: Global, text: &str) -> Result<(String, String), AllocError> {
    let Some((before, behind)) = text.split_once(MARK) else {
        return Ok((String::from_str(alloc, text)?, String::new(alloc)));
    };
    let place = place_after(Place { line: 1, byte: 1 }, before.as_bytes());
    let (line, byte) = (place.line, place.byte);
    Ok((
        format!(in alloc; "{before}{behind}")?,
        format!(in alloc; "{line}:{byte}")?,
    ))
}
