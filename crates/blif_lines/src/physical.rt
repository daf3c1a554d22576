ghost use Rattle.std.specs.Prelude.{◌≡◌, ◌≤◌, ◌<◌, ◌+◌, ◌++◌, ◌∷◌, [], ◌↔◌, ℕ, List, true, min, IsTrue, IsUtf8, MatchOption};
ghost use Rattle.std.specs.List.{AllPass};
ghost use Rattle.vtr_base.specs.Spans.{is_white, IsSpan};
ghost use Rattle.blif_lines.specs.Lines.{BeginsBehind, IsWordPlace};
ghost use Rattle.blif_lines.specs.Physical.{IsBeforeComment, IsLeft};
ghost use Rattle.blif_lines.specs.Seen.{piece_seen};

use crate::words::white;
use text_parts::as_text;
use vtr_base::{Place, cut};

/// A physical line.
#[derive(Clone, Copy)]
pub(crate) struct Physical<'a> {
    /// Its number in the file, from 1.
    pub number: u32,
    /// All its bytes.
    pub line: &'a [u8],
    /// What is left of it without its comment and without a `\` at the end of that.
    pub text: &'a [u8],
    /// Whether that `\` is there and joins the next physical line.
    pub joins: bool,
}

impl<'a> Physical<'a> {
    /// Whether all its bytes are UTF-8.
    pub fn is_utf8(&self) -> bool
        ensures { IsTrue result ↔ IsUtf8 self.now.line.now }
    {
        as_text(self.line).is_some()
    }

    /// Where its first word begins.
    pub fn word_place(&self) -> Option<Place>
        ensures { MatchOption result (AllPass is_white self.now.text.now)
            (IsWordPlace (piece_seen self.now)) }
    {
        let gap = gap_of(self.text)?;
        Some(Place {
            line: self.number,
            byte: byte_behind(gap),
        })
    }
}

/// How many white bytes stand in front of a text's first word.
fn gap_of(text: &[u8]) -> Option<usize>
    ensures { MatchOption result (AllPass is_white text.now) (BeginsBehind text.now) }
{
    let (gap, words) = white(text);
    if words.is_empty() {
        return None;
    }
    Some(gap.len())
}

/// The byte, counted from 1, that so many stand in front of.
fn byte_behind(count: usize) -> u32
    ensures { result ≡ min (count + 1) 4294967295 }
{
    if count < 4_294_967_294 {
        count as u32 + 1
    } else {
        4_294_967_295
    }
}

/// What stands before the first `#`, or the whole line.
pub(crate) fn before_comment(line: &[u8]) -> &[u8]
    ensures { IsBeforeComment line.now result.now }
{
    match cut(line, b'#') {
        Some((said, _comment)) => said,
        None => line,
    }
}

/// The text without a `\` at its end, and whether that was there.
pub(crate) fn without_join(said: &[u8]) -> (&[u8], bool)
    ensures { IsLeft said.now result.0.now result.1 }
{
    match said {
        [front @ .., b'\\'] => (front, true),
        _ => (said, false),
    }
}
