ghost use Rattle.std.specs.Prelude.{◌≡◌, map, IfOk};
ghost use Rattle.vtr_base.specs.Spans.{is_word_byte};
ghost use Rattle.meta_parts.specs.Lines.{is_said, said_lines as lines_that_say};
ghost use Rattle.meta_parts.specs.Seen.{seen};

use std::alloc::{AllocError, Global};
use text_parts::next_line;

/// A line of a text.
#[derive(Clone, Copy)]
pub struct Line<'a> {
    /// Counted from 1, empty lines too; the count stands still at 4,294,967,295.
    pub number: u32,
    /// The line without its line feed.
    pub text: &'a [u8],
}

/// The lines of a text that aren't white space alone.
pub fn said_lines<'a>(alloc: Global, text: &'a [u8]) -> Result<Vec<Line<'a>>, AllocError>
    ensures { IfOk result (λ found. map seen found.items ≡ lines_that_say text.now) }
{
    let mut found = Vec::new(alloc);
    let mut rest = text;
    let mut number: u32 = 1;
    while let Some((line, behind)) = next_line(rest) {
        if says_something(line) {
            found.push(Line { number, text: line })?;
        }
        number = number.saturating_add(1);
        rest = behind;
    }
    Ok(found)
}

/// Whether some byte of a line isn't white space.
fn says_something(line: &[u8]) -> bool
    ensures { result ≡ is_said line.now }
{
    line.iter().any(|b| is_dark_byte(*b))
}

fn is_dark_byte(b: u8) -> bool
    ensures { result ≡ is_word_byte b }
{
    !matches!(b, b' ' | b'\t' | b'\n' | b'\r')
}
