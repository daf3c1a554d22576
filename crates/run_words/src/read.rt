ghost use Rattle.std.specs.Prelude.{◌≡◌, [], ◌<◌, Some, IfOk, IfErr, MatchOption, map, string_bytes, length, slice_get, ℕ};
ghost use Rattle.vtr_base.specs.Lists.{IsFirstPlace};
ghost use Rattle.run_words.specs.Commands.{IsCommand, IsNoCommand, names_of};
ghost use Rattle.run_words.specs.declared.shape.Shape.{Shape as ShapeSaid};
ghost use Rattle.run_words.specs.Words.{AreOfKinds};
ghost use Rattle.run_words.specs.Readings.{parts_in, IsRest, IsRestRefusal};

use crate::fits::is_same;
use crate::parts::Reading;
use crate::{Shape, WordsError};
use std::alloc::Global;

/// A command: the number of its row, the options that were given, and its plain words.
#[derive(Drop)]
pub struct Command<'w> {
    pub row: usize,
    pub options: Vec<&'w str>,
    pub plain: Vec<&'w str>,
}

/// The command of the table that the words are, or the first word that can't stand: none has the
/// first word as its name, or behind this the word is no option, more than the plain words, no
/// number in its range, or an earlier output's; where words are missing, it is the place behind the
/// last.
pub fn read_words<'w>(
    alloc: Global,
    table: &[Shape<'_>],
    words: &'w [String],
) -> Result<Command<'w>, WordsError>
    ensures read { IfOk result (λ c. IsCommand table.now (map string_bytes words.now) c.row
        (map (λ o. o.now) c.options.items) (map (λ w. w.now) c.plain.items)) }
    ensures kinds { IfOk result (λ c. (shape : ShapeSaid) → slice_get table.now c.row ≡ Some shape
        → AreOfKinds shape.words.now (map (λ w. w.now) c.plain.items)) }
    ensures refused { IfErr result (IsNoCommand table.now (map string_bytes words.now)) }
{
    let [name, rest @ ..] = words else {
        return Err(WordsError::Wrong { place: 0 });
    };
    let Some(row) = row_named(table, name.as_str()) else {
        return Err(WordsError::Wrong { place: 0 });
    };
    let reading = read_rest(alloc, &table[row], rest)?;
    Ok(Command {
        row,
        options: reading.options,
        plain: reading.plain,
    })
}

/// What the words behind a command's name come to, or the first of them that can't stand.
fn read_rest<'w>(
    alloc: Global,
    shape: &Shape<'_>,
    rest: &'w [String],
) -> Result<Reading<'w>, WordsError>
    ensures read { IfOk result (λ r. IsRest shape.now (map string_bytes rest.now) (parts_in r)) }
    ensures refused { IfErr result (IsRestRefusal shape.now (map string_bytes rest.now)) }
{
    let mut reading = Reading::new(alloc);
    for (place, word) in rest.iter().enumerate() {
        let word = word.as_str();
        if !reading.can_join(shape, word) {
            return Err(WordsError::Wrong { place: place + 1 });
        }
        reading.join(word)?;
    }
    if reading.plain.len() < shape.words.len() {
        return Err(WordsError::Wrong {
            place: rest.len() + 1,
        });
    }
    Ok(reading)
}

/// The row of that name.
fn row_named(table: &[Shape<'_>], name: &str) -> Option<usize>
    ensures { MatchOption result ((row : ℕ) → slice_get (names_of table.now) row ≡ Some name.now
        → ⊥) (IsFirstPlace (names_of table.now) name.now) }
{
    for (row, shape) in table.iter().enumerate() {
        if is_same(shape.name, name) {
            return Some(row);
        }
    }
    None
}
