ghost use Rattle.std.specs.Prelude.{◌≡◌, ◌∷◌, ◌<◌, ◌+◌, ◌&&◌, ◌==◌, ℕ, List, Bool, IfOk, IfErr, OnErr, IsUtf8, length, slice_index};
ghost use Rattle.std.specs.Option.{option_map};
ghost use Rattle.vtr_base.specs.declared.place.Place.{Place};
ghost use Rattle.elem_text.specs.Grammar.{IsComment, IsInstruction, IsLex, behind_comment, behind_instruction};
ghost use Rattle.elem_text.specs.Flaws.{IsFlawOf, AComment, AnInstruction, APiece};
ghost use Rattle.elem_text.specs.Lexed.{lexed, IsUtf8Lex};

use crate::bytes::{byte, until};
use crate::lex::{Flaw, Lex};
use crate::tags::{end_tag, ended, start_tag};
use std::alloc::Global;

/// Whether `-->` stands at `n`.
fn ends_comment(bytes: &[u8], n: usize) -> bool
    requires { n + 2 < length bytes.now }
    ensures { result ≡ ((slice_index bytes.now (n + 2) == 62)
        && ((slice_index bytes.now (n + 1) == 45) && (slice_index bytes.now n == 45))) }
{
    bytes[n + 2] == b'>' && bytes[n + 1] == b'-' && bytes[n] == b'-'
}

/// What follows the first `-->`.
fn behind_comment(bytes: &[u8]) -> Option<&[u8]>
    ensures { option_map (λ rest. rest.now) result ≡ behind_comment bytes.now }
{
    for n in 0..bytes.len().saturating_sub(2) {
        if ends_comment(bytes, n) {
            return Some(&bytes[n + 3..]);
        }
    }
    None
}

/// Whether `?>` stands at `n`.
fn ends_instruction(bytes: &[u8], n: usize) -> bool
    requires { n + 1 < length bytes.now }
    ensures { result ≡ ((slice_index bytes.now (n + 1) == 62) && (slice_index bytes.now n == 63)) }
{
    bytes[n + 1] == b'>' && bytes[n] == b'?'
}

/// What follows the first `?>`.
fn behind_instruction(bytes: &[u8]) -> Option<&[u8]>
    ensures { option_map (λ rest. rest.now) result ≡ behind_instruction bytes.now }
{
    for n in 0..bytes.len().saturating_sub(1) {
        if ends_instruction(bytes, n) {
            return Some(&bytes[n + 2..]);
        }
    }
    None
}

/// What follows the comment whose `<!` stands before `inside`.
fn comment(inside: &[u8]) -> Result<&[u8], Flaw>
    ensures whole { IfOk result (λ rest. IsComment (60 ∷ 33 ∷ inside.now) rest.now) }
    ensures flaw { IfErr result (λ f. IsFlawOf AComment f inside.now) }
{
    let Some(first) = byte(inside, b'-') else {
        return Err(ended(inside));
    };
    let Some(second) = byte(first, b'-') else {
        return Err(ended(first));
    };
    let Some(rest) = behind_comment(second) else {
        return Err(Flaw::Cut);
    };
    Ok(rest)
}

/// What follows the instruction whose `<?` stands before `inside`.
fn instruction(inside: &[u8]) -> Result<&[u8], Flaw>
    ensures whole { IfOk result (λ rest. IsInstruction (60 ∷ 63 ∷ inside.now) rest.now) }
    ensures flaw { IfErr result (λ f. IsFlawOf AnInstruction f inside.now) }
{
    let Some(rest) = behind_instruction(inside) else {
        return Err(Flaw::Cut);
    };
    Ok(rest)
}

/// What stands in a tag's place behind `<`, and what follows it.
fn behind_angle(alloc: Global, inside: &[u8]) -> Result<(Lex<'_>, &[u8]), Flaw>
    requires { IsUtf8 inside.now }
    ensures whole { IfOk result (λ r. (at : Place) → IsLex at (60 ∷ inside.now) (lexed at r.0)
        r.1.now) }
    ensures utf8 { IfOk result (λ r. IsUtf8Lex r.0 × IsUtf8 r.1.now) }
    ensures flaw { IfErr result (λ f. IsFlawOf APiece f (60 ∷ inside.now)) }
{
    if let Some(rest) = byte(inside, b'/') {
        let (name, rest) = end_tag(rest)?;
        return Ok((Lex::Closes(name), rest));
    }
    if let Some(rest) = byte(inside, b'!') {
        let rest = comment(rest)?;
        return Ok((Lex::Skip, rest));
    }
    if let Some(rest) = byte(inside, b'?') {
        let rest = instruction(rest)?;
        return Ok((Lex::Skip, rest));
    }
    start_tag(alloc, inside)
}

/// The piece at the front, and what follows it.
pub fn piece(alloc: Global, bytes: &[u8]) -> Result<(Lex<'_>, &[u8]), Flaw>
    requires some { 0 < length bytes.now }
    requires text { IsUtf8 bytes.now }
    ensures whole { IfOk result (λ r. (at : Place) → IsLex at bytes.now (lexed at r.0) r.1.now) }
    ensures utf8 { IfOk result (λ r. IsUtf8Lex r.0 × IsUtf8 r.1.now) }
    ensures flaw { IfErr result (λ f. IsFlawOf APiece f bytes.now) }
    ensures angle { OnErr result ((inside : List ℕ) × (bytes.now ≡ 60 ∷ inside)) }
{
    if let Some(inside) = byte(bytes, b'<') {
        return behind_angle(alloc, inside);
    }
    let (raw, rest) = until(bytes, b'<');
    Ok((Lex::Run(raw), rest))
}
