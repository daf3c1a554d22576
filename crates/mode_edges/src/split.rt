ghost use Rattle.std.specs.Prelude.{◌≡◌, ◌↔◌, List, map, IsTrue, IfOk};
ghost use Rattle.vtr_base.specs.Spans.{is_white, is_word_byte, IsSpan, AreWords};
ghost use Rattle.mode_edges.specs.PinWords.{without_braces};

use std::alloc::{AllocError, Global};

/// The words of a text, divided by white space.
pub(crate) fn words<'a>(alloc: Global, text: &'a [u8]) -> Result<Vec<&'a [u8]>, AllocError>
    ensures { IfOk result (λ found. AreWords text.now (map (λ w. w.now) found.items)) }
{
    let mut found = Vec::new(alloc);
    let (_gap, mut rest) = white(text);
    while !rest.is_empty() {
        let (word, behind) = word_and_rest(rest);
        found.push(word)?;
        let (_gap, after) = white(behind);
        rest = after;
    }
    Ok(found)
}

/// A text of which every brace is taken out.
pub(crate) fn drop_braces(alloc: Global, text: &[u8]) -> Result<Vec<u8>, AllocError>
    ensures { IfOk result (λ v. v.items ≡ without_braces text.now) }
{
    text.iter()
        .copied()
        .filter(|b| !(*b == b'{' || *b == b'}'))
        .collect(alloc)
}

/// The white space in front, and what follows.
fn white(text: &[u8]) -> (&[u8], &[u8])
    ensures { IsSpan is_white text.now result.0.now result.1.now }
{
    let Some(end) = text.iter().position(|b| !is_white_byte(*b)) else {
        return text.split_at(text.len());
    };
    text.split_at(end)
}

/// What stands in front of the first white space, and what follows.
fn word_and_rest(text: &[u8]) -> (&[u8], &[u8])
    ensures { IsSpan is_word_byte text.now result.0.now result.1.now }
{
    let Some(end) = text.iter().position(|b| is_white_byte(*b)) else {
        return text.split_at(text.len());
    };
    text.split_at(end)
}

fn is_white_byte(b: u8) -> bool
    ensures { result ≡ is_white b }
{
    matches!(b, b' ' | b'\t' | b'\n' | b'\r')
}
