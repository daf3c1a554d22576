ghost use Rattle.std.specs.Prelude.{◌≡◌, ◌<◌, ◌==◌, [], ◌∷◌, length, map, slice_index, IfOk, IfSome, MatchOption};
ghost use Rattle.std.specs.Str.{IsUtf8};
ghost use Rattle.std.specs.Str.Lines.{lines as lines_of, strip_carriage_return};

use std::alloc::{AllocError, Global};
use vtr_base::cut;

/// The lines of a file: each ends at a line feed or at the file's end, and a carriage return right
/// before a line feed is dropped. Line n of the file is the (n - 1)-th of them.
pub fn lines<'a>(alloc: Global, bytes: &'a [u8]) -> Result<Vec<&'a [u8]>, AllocError>
    ensures { IfOk result (λ found. map (λ line. line.now) found.items ≡ lines_of bytes.now) }
{
    let mut found = Vec::new(alloc);
    let mut rest = bytes;
    while let Some((line, behind)) = next_line(rest) {
        found.push(line)?;
        rest = behind;
    }
    Ok(found)
}

/// The first line and the bytes behind it, where any bytes are left.
pub fn next_line(bytes: &[u8]) -> Option<(&[u8], &[u8])>
    ensures line { MatchOption result (bytes.now ≡ [])
        (λ r. lines_of bytes.now ≡ r.0.now ∷ lines_of r.1.now) }
    ensures less { IfSome result (λ r. length r.1.now < length bytes.now) }
{
    if bytes.is_empty() {
        return None;
    }
    match cut(bytes, b'\n') {
        Some((whole, rest)) => Some((without_return(whole), rest)),
        None => Some((bytes, &[])),
    }
}

/// The text without one carriage return at its end.
fn without_return(whole: &[u8]) -> &[u8]
    ensures { result.now ≡ strip_carriage_return whole.now }
{
    match whole {
        [line @ .., b'\r'] => line,
        _ => whole,
    }
}

/// The same bytes as a text, where they are UTF-8.
pub fn as_text(bytes: &[u8]) -> Option<&str>
    ensures { MatchOption result (IsUtf8 bytes.now → ⊥) (λ text. text.now ≡ bytes.now) }
{
    str::from_utf8(bytes).ok()
}
