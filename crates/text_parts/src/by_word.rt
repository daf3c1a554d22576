ghost use Rattle.std.specs.Prelude.{◌≡◌, ◌==◌, map, IfOk};
ghost use Rattle.std.specs.List.{slice_split};
ghost use Rattle.vtr_base.specs.Spans.{is_white, is_word_byte, IsSpan};
ghost use Rattle.text_parts.specs.Words.{AreWordsFrom};
ghost use Rattle.text_parts.specs.Trims.{IsTrimmed, IsCutAtEnd};
ghost use Rattle.text_parts.specs.Seen.{seen};

use std::alloc::{AllocError, Global};

/// A word of a text.
#[derive(Clone, Copy)]
pub struct Word<'a> {
    pub text: &'a [u8],
    /// How many bytes of the text stand before it.
    pub at: usize,
}

/// The words of a text, divided by white space (space, tab, line feed and carriage return), with
/// their places.
pub fn words<'a>(alloc: Global, text: &'a [u8]) -> Result<Vec<Word<'a>>, AllocError>
    ensures { IfOk result (λ found. AreWordsFrom 0 text.now (map seen found.items)) }
{
    let mut found = Vec::new(alloc);
    let (gap, mut rest) = white(text);
    let mut at = gap.len();
    while !rest.is_empty() {
        let (word, behind) = word_and_rest(rest);
        found.push(Word { text: word, at })?;
        let (gap, after) = white(behind);
        at += word.len() + gap.len();
        rest = after;
    }
    Ok(found)
}

/// The parts of a text between its blanks: words that are divided by one blank each, and an empty
/// part where a blank begins or ends the text or follows another.
pub fn blank_parts<'a>(alloc: Global, text: &'a [u8]) -> Result<Vec<&'a [u8]>, AllocError>
    ensures { IfOk result (λ found.
        map (λ part. part.now) found.items ≡ slice_split (λ b. b == 32) text.now) }
{
    text.split(|b| *b == b' ').collect(alloc)
}

/// The white space in front, and what follows.
fn white(text: &[u8]) -> (&[u8], &[u8])
    ensures { IsSpan is_white text.now result.0.now result.1.now }
{
    let Some(end) = text.iter().position(|b| !is_white_byte(*b)) else {
        return text.split_at(text.len());
    };
    text.split_at(end)
}

/// What stands in front of the first white space, and what follows.
fn word_and_rest(text: &[u8]) -> (&[u8], &[u8])
    ensures { IsSpan is_word_byte text.now result.0.now result.1.now }
{
    let Some(end) = text.iter().position(|b| is_white_byte(*b)) else {
        return text.split_at(text.len());
    };
    text.split_at(end)
}

fn is_white_byte(b: u8) -> bool
    ensures { result ≡ is_white b }
{
    matches!(b, b' ' | b'\t' | b'\n' | b'\r')
}

/// The text without the white space at its start and at its end.
pub fn trimmed(text: &[u8]) -> &[u8]
    ensures { IsTrimmed text.now result.now }
{
    let (_gap, rest) = white(text);
    without_end(rest)
}

/// The text without the white space at its end.
fn without_end(text: &[u8]) -> &[u8]
    ensures { IsCutAtEnd text.now result.now }
{
    for end in (0..text.len()).rev() {
        if !is_white_byte(text[end]) {
            return &text[..end + 1];
        }
    }
    &[]
}
