ghost use Rattle.std.specs.Prelude.{◌≡◌, ◌<◌, ◌++◌, ◌∷◌, [], true, List, IfOk, OnOk, length};
ghost use Rattle.blif_lines.specs.Lines.{IsLineOf};
ghost use Rattle.blif_lines.specs.Physical.{Piece};
ghost use Rattle.blif_lines.specs.Seen.{Holds, StandsAt, StepsTo, piece_seen, seen};

use crate::line::{Cursor, Line, LineText, next_physical, place_or_start};
use crate::physical::Physical;
use std::alloc::{AllocError, Global};
use vtr_base::Place;

/// Physical lines that are put together.
#[derive(Drop)]
pub(crate) struct Joining {
    text: Vec<u8>,
    is_utf8: bool,
    /// Where the first word begins.
    place: Option<Place>,
}

impl Joining {
    fn new(alloc: Global) -> Joining
        ensures { Holds [] result }
    {
        Joining {
            text: Vec::new(alloc),
            is_utf8: true,
            place: None,
        }
    }

    /// Puts a physical line behind the others.
    fn add(&mut self, piece: Physical<'_>) -> Result<(), AllocError>
        ensures { OnOk result ((pieces : List Piece) → Holds pieces self.old
            → Holds (pieces ++ piece_seen piece.entry ∷ []) self.new) }
    {
        self.text.extend_from_slice(piece.text)?;
        self.is_utf8 &= piece.is_utf8();
        self.place = self.place.or(piece.word_place());
        Ok(())
    }

    /// The line that these make, the first of which has this number.
    fn line<'a>(self, number: u32) -> Line<'a>
        ensures { (pieces : List Piece) → Holds pieces self
            → IsLineOf number pieces (seen result) }
    {
        Line {
            text: LineText::Joined(self.text),
            is_utf8: self.is_utf8,
            place: place_or_start(self.place, number),
        }
    }
}

/// The line whose first physical line joins the next one, and how far the file is read behind it.
pub(crate) fn join_from<'a>(
    alloc: Global,
    start: Cursor<'a>,
    first: Physical<'a>,
    behind: Cursor<'a>,
) -> Result<(Line<'a>, Cursor<'a>), AllocError>
    requires first { StepsTo start (piece_seen first) behind }
    requires joins { first.joins ≡ true }
    requires less { length behind.rest.now < length start.rest.now }
    ensures line { IfOk result (λ r. StandsAt start.entry (seen r.0) r.1) }
    ensures less { IfOk result (λ r. length r.1.rest.now < length start.entry.rest.now) }
{
    let mut joining = Joining::new(alloc);
    joining.add(first)?;
    let mut at = behind;
    while let Some((piece, after)) = next_physical(at) {
        joining.add(piece)?;
        if !piece.joins {
            return Ok((joining.line(start.number), after));
        }
        at = after;
    }
    Ok((joining.line(start.number), at))
}
