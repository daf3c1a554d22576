ghost use Rattle.std.specs.Prelude.{◌≡◌, ◌<◌, ◌∷◌, [], IfOk, IfSome, IsUtf8, MatchOption, length, map, unwrap_or};
ghost use Rattle.vtr_base.specs.Spans.{AreWords};
ghost use Rattle.std.specs.Str.Lines.{lines};
ghost use Rattle.blif_lines.specs.Lines.{IsLineOf};
ghost use Rattle.blif_lines.specs.Seen.{StandsAt, StepsTo, piece_seen, seen, still, text_seen};

use crate::joined::join_from;
use crate::physical::{Physical, before_comment, without_join};
use crate::words::words_of;
use std::alloc::{AllocError, Global};
use text_parts::as_text;
use vtr_base::Place;

/// How far a file is read.
#[derive(Clone, Copy)]
pub struct Cursor<'a> {
    pub(crate) rest: &'a [u8],
    /// The number of the physical line with which the rest begins.
    pub(crate) number: u32,
}

impl<'a> Cursor<'a> {
    /// In front of the first line.
    pub fn new(bytes: &'a [u8]) -> Cursor<'a>
        ensures number { result.number ≡ 1 }
        ensures still { still result ≡ lines bytes.now }
    {
        Cursor {
            rest: bytes,
            number: 1,
        }
    }
}

/// What a line says: a part of the file, or the texts of physical lines that are joined.
#[derive(Drop)]
pub enum LineText<'a> {
    Lent(&'a [u8]),
    Joined(Vec<u8>),
}

/// A line of a BLIF file: one physical line, or several that `\` joins, without comments.
#[derive(Drop)]
pub struct Line<'a> {
    pub text: LineText<'a>,
    /// Whether all its physical lines are UTF-8, comments too.
    pub is_utf8: bool,
    /// Where its first word begins; where it has none, the first byte of its first physical line.
    pub place: Place,
}

impl<'a> Line<'a> {
    /// The bytes of its text.
    pub fn bytes(&self) -> &[u8]
        ensures { result.now ≡ text_seen self.now.text }
    {
        match &self.text {
            LineText::Lent(text) => text,
            LineText::Joined(text) => text.as_slice(),
        }
    }

    /// Its words, divided by white space; none where its text isn't UTF-8.
    pub fn words(&self, alloc: Global) -> Result<Vec<&str>, AllocError>
        ensures { IfOk result (λ found. IsUtf8 (text_seen self.now.text)
            → AreWords (text_seen self.now.text) (map (λ w. w.now) found.items)) }
    {
        match as_text(self.bytes()) {
            Some(text) => words_of(alloc, text),
            None => Ok(Vec::new(alloc)),
        }
    }
}

/// The next line, and how far the file is read behind it; none where all of it is read.
pub fn next_line<'a>(
    alloc: Global,
    at: Cursor<'a>,
) -> Result<Option<(Line<'a>, Cursor<'a>)>, AllocError>
    ensures line { IfOk result (λ found. MatchOption found (still at.entry ≡ [])
        (λ r. StandsAt at.entry (seen r.0) r.1)) }
    ensures less { IfOk result (λ found. IfSome found
        (λ r. length r.1.rest.now < length at.entry.rest.now)) }
{
    let Some((first, behind)) = next_physical(at) else {
        return Ok(None);
    };
    if first.joins {
        let joined = join_from(alloc, at, first, behind)?;
        return Ok(Some(joined));
    }
    Ok(Some((lone_line(first), behind)))
}

/// The line of one physical line.
fn lone_line(piece: Physical<'_>) -> Line<'_>
    ensures { IsLineOf piece.entry.number (piece_seen piece.entry ∷ []) (seen result) }
{
    Line {
        text: LineText::Lent(piece.text),
        is_utf8: piece.is_utf8(),
        place: place_or_start(piece.word_place(), piece.number),
    }
}

/// The place of a first word, and without one that of the first byte of this physical line.
pub(crate) fn place_or_start(place: Option<Place>, number: u32) -> Place
    ensures { result ≡ unwrap_or place (record { line = number; byte = 1 }) }
{
    place.unwrap_or(Place {
        line: number,
        byte: 1,
    })
}

/// The next physical line, and how far the file is read behind it.
pub(crate) fn next_physical(at: Cursor<'_>) -> Option<(Physical<'_>, Cursor<'_>)>
    ensures steps { MatchOption result (still at.entry ≡ [])
        (λ r. StepsTo at.entry (piece_seen r.0) r.1) }
    ensures less { IfSome result (λ r. length r.1.rest.now < length at.entry.rest.now) }
{
    let (line, rest) = text_parts::next_line(at.rest)?;
    let (text, joins) = without_join(before_comment(line));
    let piece = Physical {
        number: at.number,
        line,
        text,
        joins,
    };
    Some((
        piece,
        Cursor {
            rest,
            number: at.number.saturating_add(1),
        },
    ))
}
