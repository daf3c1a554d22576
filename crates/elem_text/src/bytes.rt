ghost use Rattle.std.specs.Prelude.{◌≡◌, ◌∷◌, ◌<◌, ℕ, List, IsTrue, ◌↔◌, MatchOption};
ghost use Rattle.elem_text.specs.Bytes.{is_white, is_letter, is_name_byte, is_not, IsSpan, BeginsWithLetter, place_after};

use vtr_base::Place;

#[tactic(auto, unfolding(crate::specs::Bytes::is_white))]
fn is_white(b: u8) -> bool
    ensures { result ≡ is_white b }
{
    b == b' ' || b == b'\t' || b == b'\r' || b == b'\n'
}

#[tactic(auto, unfolding(crate::specs::Bytes::is_letter))]
fn is_letter(b: u8) -> bool
    ensures { result ≡ is_letter b }
{
    (b >= b'A' && b <= b'Z') || (b >= b'a' && b <= b'z') || b == b'_' || b == b':'
}

#[tactic(auto, unfolding(crate::specs::Bytes::is_name_byte))]
fn is_name_byte(b: u8) -> bool
    ensures { result ≡ is_name_byte b }
{
    is_letter(b) || (b >= b'0' && b <= b'9') || b == b'-' || b == b'.'
}

/// The white space at the front, and the rest.
pub fn white(bytes: &[u8]) -> (&[u8], &[u8])
    ensures { IsSpan is_white bytes.now result.0.now result.1.now }
{
    for (n, b) in bytes.iter().enumerate() {
        if !is_white(*b) {
            return bytes.split_at(n);
        }
    }
    bytes.split_at(bytes.len())
}

/// The bytes at the front that a name may go on with, and the rest.
pub fn word(bytes: &[u8]) -> (&[u8], &[u8])
    ensures { IsSpan is_name_byte bytes.now result.0.now result.1.now }
{
    for (n, b) in bytes.iter().enumerate() {
        if !is_name_byte(*b) {
            return bytes.split_at(n);
        }
    }
    bytes.split_at(bytes.len())
}

/// What stands before the first byte `stop`, and the rest.
pub fn until(bytes: &[u8], stop: u8) -> (&[u8], &[u8])
    ensures { IsSpan (is_not stop) bytes.now result.0.now result.1.now }
{
    for (n, b) in bytes.iter().enumerate() {
        if *b == stop {
            return bytes.split_at(n);
        }
    }
    bytes.split_at(bytes.len())
}

/// What follows the byte `b`, where the bytes begin with it.
pub fn byte(bytes: &[u8], b: u8) -> Option<&[u8]>
    ensures { MatchOption result ((rest : List ℕ) → bytes.now ≡ b ∷ rest → ⊥)
        (λ rest. bytes.now ≡ b ∷ rest.now) }
{
    let Some((first, rest)) = bytes.split_first() else {
        return None;
    };
    if *first != b {
        return None;
    }
    Some(rest)
}

/// Whether a name may begin here.
pub fn begins_with_letter(bytes: &[u8]) -> bool
    ensures { IsTrue result ↔ BeginsWithLetter bytes.now }
{
    let Some((first, _)) = bytes.split_first() else {
        return false;
    };
    is_letter(*first)
}

/// The place behind these bytes, the first of which stands at `at`.
pub fn place_after(at: Place, bytes: &[u8]) -> Place
    ensures { result ≡ place_after at bytes.now }
{
    let mut line = at.line;
    let mut byte = at.byte;
    for b in bytes {
        if *b == b'\n' {
            line = line.saturating_add(1);
            byte = 1;
        } else {
            byte = byte.saturating_add(1);
        }
    }
    Place { line, byte }
}
