ghost use Rattle.std.specs.Prelude.{◌≡◌, ◌<◌, ◌++◌, ◌∷◌, [], length, map, IfOk, IfSome, IsUtf8, MatchOption};
ghost use Rattle.std.specs.List.{AllPass};
ghost use Rattle.vtr_base.specs.Spans.{is_white, is_word_byte, AreWords, IsSpan};
ghost use Rattle.blif_lines.specs.Words.{IsFirstWord};

use std::alloc::{AllocError, Global};

/// The words of a text, divided by white space (space, tab, line feed and carriage return).
pub(crate) fn words_of<'a>(alloc: Global, text: &'a str) -> Result<Vec<&'a str>, AllocError>
    ensures { IfOk result (λ found. AreWords text.now (map (λ w. w.now) found.items)) }
{
    let mut found = Vec::new(alloc);
    let mut rest = text;
    while let Some((word, behind)) = next_word(rest) {
        found.push(word)?;
        rest = behind;
    }
    Ok(found)
}

/// The first word and what follows it.
fn next_word(text: &str) -> Option<(&str, &str)>
    ensures word { MatchOption result (AllPass is_white text.now)
        (λ r. IsFirstWord text.now r.0.now r.1.now) }
    ensures utf8 { IfSome result (λ r. IsUtf8 r.1.now) }
    ensures less { IfSome result (λ r. length r.1.now < length text.now) }
{
    let (gap, _) = white(text.as_bytes());
    let (_, behind) = text.split_at(gap.len());
    if behind.is_empty() {
        return None;
    }
    let (word, _) = word_and_rest(behind.as_bytes());
    Some(behind.split_at(word.len()))
}

/// The white space in front, and what follows.
pub(crate) fn white(text: &[u8]) -> (&[u8], &[u8])
    ensures { IsSpan is_white text.now result.0.now result.1.now }
{
    let Some(end) = text.iter().position(|b| !is_white_byte(*b)) else {
        return text.split_at(text.len());
    };
    text.split_at(end)
}

/// What stands in front of the first white space, and what follows.
fn word_and_rest(text: &[u8]) -> (&[u8], &[u8])
    ensures { IsSpan is_word_byte text.now result.0.now result.1.now }
{
    let Some(end) = text.iter().position(|b| is_white_byte(*b)) else {
        return text.split_at(text.len());
    };
    text.split_at(end)
}

fn is_white_byte(b: u8) -> bool
    ensures { result ≡ is_white b }
{
    matches!(b, b' ' | b'\t' | b'\n' | b'\r')
}
