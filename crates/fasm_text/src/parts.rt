ghost use Rattle.std.specs.Prelude.{◌≡◌, ◌↔◌, ℕ, List, IsTrue, MatchOption};
ghost use Rattle.std.specs.List.{AllPass};
ghost use Rattle.vtr_base.specs.Spans.{IsSpan};
ghost use Rattle.fasm_text.specs.Lines.{is_blank, is_filled, IsBeforeComment, HasOneWord};

use vtr_base::cut;

/// What stands before the first `#`, or the whole line.
pub(crate) fn before_comment(line: &[u8]) -> &[u8]
    ensures { IsBeforeComment line.now result.now }
{
    match cut(line, b'#') {
        Some((said, _comment)) => said,
        None => line,
    }
}

/// The one word of a text, with blanks and tabs round it or not.
pub(crate) fn one_word(text: &[u8]) -> Option<&[u8]>
    ensures { MatchOption result ((word : List ℕ) → HasOneWord text.now word → ⊥)
        (λ word. HasOneWord text.now word.now) }
{
    let (_gap, rest) = blanks(text);
    let (word, behind) = filled(rest);
    if word.is_empty() {
        return None;
    }
    if !are_blanks(behind) {
        return None;
    }
    Some(word)
}

/// Whether a text is blanks and tabs alone.
pub(crate) fn are_blanks(text: &[u8]) -> bool
    ensures { IsTrue result ↔ AllPass is_blank text.now }
{
    text.iter().all(|b| is_blank_byte(*b))
}

/// The blanks and tabs in front, and what follows.
fn blanks(text: &[u8]) -> (&[u8], &[u8])
    ensures { IsSpan is_blank text.now result.0.now result.1.now }
{
    let Some(end) = text.iter().position(|b| !is_blank_byte(*b)) else {
        return text.split_at(text.len());
    };
    text.split_at(end)
}

/// What stands in front of the first blank or tab, and what follows.
fn filled(text: &[u8]) -> (&[u8], &[u8])
    ensures { IsSpan is_filled text.now result.0.now result.1.now }
{
    let Some(end) = text.iter().position(|b| is_blank_byte(*b)) else {
        return text.split_at(text.len());
    };
    text.split_at(end)
}

fn is_blank_byte(b: u8) -> bool
    ensures { result ≡ is_blank b }
{
    matches!(b, b' ' | b'\t')
}
