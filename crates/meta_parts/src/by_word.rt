ghost use Rattle.std.specs.Prelude.{◌≡◌, ◌∷◌, [], ℕ, List, map, IfOk, MatchOption};
ghost use Rattle.std.specs.List.{slice_split};
ghost use Rattle.vtr_base.specs.Spans.{is_white};
ghost use Rattle.meta_parts.specs.Words.{is_gap, is_comma, words_by, words_of};

use std::alloc::{AllocError, Global};

/// The words of a text, divided by white space (space, tab, line feed and carriage return).
pub fn words<'a>(alloc: Global, text: &'a [u8]) -> Result<Vec<&'a [u8]>, AllocError>
    ensures { IfOk result (λ found. map (λ w. w.now) found.items ≡ words_of text.now) }
{
    text.split(|b| is_white_byte(*b))
        .filter(|part| !part.is_empty())
        .collect(alloc)
}

/// The words of a list, divided by white space or commas, as many as there are.
pub fn listed_words<'a>(alloc: Global, text: &'a [u8]) -> Result<Vec<&'a [u8]>, AllocError>
    ensures { IfOk result (λ found. map (λ w. w.now) found.items ≡ words_by is_gap text.now) }
{
    text.split(|b| is_gap_byte(*b))
        .filter(|part| !part.is_empty())
        .collect(alloc)
}

/// The parts of a text between its commas, empty ones too.
pub fn comma_parts<'a>(alloc: Global, text: &'a [u8]) -> Result<Vec<&'a [u8]>, AllocError>
    ensures { IfOk result (λ found.
        map (λ part. part.now) found.items ≡ slice_split is_comma text.now) }
{
    text.split(|b| *b == b',').collect(alloc)
}

/// The word of a text that has one, with white space round it or not.
pub fn only_word<'a>(alloc: Global, text: &'a [u8]) -> Result<Option<&'a [u8]>, AllocError>
    ensures { IfOk result (λ r. MatchOption r
        ((word : List ℕ) → words_of text.now ≡ word ∷ [] → ⊥)
        (λ word. words_of text.now ≡ word.now ∷ [])) }
{
    let found = words(alloc, text)?;
    Ok(only_of(found.as_slice()))
}

/// The item of a list of one.
fn only_of<'a>(found: &[&'a [u8]]) -> Option<&'a [u8]>
    ensures { MatchOption result
        ((word : List ℕ) → map (λ w. w.now) found.now ≡ word ∷ [] → ⊥)
        (λ word. map (λ w. w.now) found.now ≡ word.now ∷ []) }
{
    match found {
        [word] => Some(*word),
        _ => None,
    }
}

fn is_white_byte(b: u8) -> bool
    ensures { result ≡ is_white b }
{
    matches!(b, b' ' | b'\t' | b'\n' | b'\r')
}

fn is_gap_byte(b: u8) -> bool
    ensures { result ≡ is_gap b }
{
    is_white_byte(b) || b == b','
}
