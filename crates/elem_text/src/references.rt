ghost use Rattle.std.specs.Prelude.{◌≡◌, ◌∷◌, ◌++◌, ◌<◌, ◌≤◌, ◌+◌, ◌-◌, ℕ, true, false, length, drop, List, Some, None, MatchOption, IfSome, IfOk, OnOk, IsUtf8};
ghost use Rattle.elem_text.specs.Bytes.{IsSpan, Stops, is_not};
ghost use Rattle.elem_text.specs.References.{begins, is_digit_of, reference, numbered, decoded};

use crate::bytes::{byte, until};
use std::alloc::{AllocError, Global};
use vtr_base::Text;

/// UTF-8 bytes as text.
fn text_of(bytes: &[u8]) -> &str
    requires { IsUtf8 bytes.now }
    ensures { result.now ≡ bytes.now }
{
    let Ok(text) = str::from_utf8(bytes) else {
        unreachable!()
    };
    text
}

/// A text that is kept, with these bytes.
pub fn kept(alloc: Global, bytes: &[u8]) -> Result<Text, AllocError>
    requires { IsUtf8 bytes.now }
    ensures { IfOk result (λ t. t ≡ bytes.now) }
{
    Text::from_str(alloc, text_of(bytes))
}

/// A text that is kept, with what these bytes stand for.
pub fn decode(alloc: Global, raw: &[u8]) -> Result<Text, AllocError>
    requires { IsUtf8 raw.now }
    ensures { IfOk result (λ t. t ≡ decoded raw.now) }
{
    let mut text = Text::new(alloc);
    push_decoded(&mut text, raw)?;
    Ok(text)
}

/// Appends what the bytes stand for.
pub fn push_decoded(out: &mut Text, raw: &[u8]) -> Result<(), AllocError>
    requires { IsUtf8 raw.now }
    ensures { OnOk result (out.new ≡ out.old ++ decoded raw.now) }
{
    let mut rest = raw;
    while !rest.is_empty() {
        let (plain, at) = until(rest, b'&');
        out.push_str(text_of(plain))?;
        rest = push_referred(out, at)?;
    }
    Ok(())
}

/// Appends what the ampersand at the front stands for, where one does, and gives what follows.
fn push_referred<'a>(out: &mut Text, at: &'a [u8]) -> Result<&'a [u8], AllocError>
    requires utf8 { IsUtf8 at.now }
    requires front { Stops (is_not 38) at.now }
    ensures utf8 { IfOk result (λ rest. IsUtf8 rest.now) }
    ensures shorter { IfOk result (λ rest. length rest.now ≤ length at.now - 1) }
    ensures stands { IfOk result (λ rest. out.new ++ decoded rest.now ≡ out.old ++ decoded at.now) }
{
    let Some(behind) = byte(at, b'&') else {
        return Ok(at);
    };
    let Some((c, rest)) = referred(behind) else {
        out.push('&')?;
        return Ok(behind);
    };
    out.push(c)?;
    Ok(rest)
}

/// The character that the bytes behind an ampersand stand for, and what follows its semicolon.
fn referred(bytes: &[u8]) -> Option<(char, &[u8])>
    ensures exact { MatchOption result (reference bytes.now ≡ None)
        (λ r. reference bytes.now ≡ Some (record {
          char = r.0;
          len = length bytes.now - length
              r.1.now;
        })) }
    ensures semicolon { IfSome result (λ r. (front : List ℕ)
        × (bytes.now ≡ front ++ 59 ∷ r.1.now)) }
{
    if let Some(rest) = behind_word(bytes, b"lt;") {
        return Some(('<', rest));
    }
    if let Some(rest) = behind_word(bytes, b"gt;") {
        return Some(('>', rest));
    }
    if let Some(rest) = behind_word(bytes, b"amp;") {
        return Some(('&', rest));
    }
    if let Some(rest) = behind_word(bytes, b"quot;") {
        return Some(('"', rest));
    }
    if let Some(rest) = behind_word(bytes, b"apos;") {
        return Some(('\'', rest));
    }
    if let Some(rest) = behind_word(bytes, b"#x") {
        return number(rest, 16);
    }
    if let Some(rest) = behind_word(bytes, b"#") {
        return number(rest, 10);
    }
    None
}

/// What follows `word`, where the bytes begin with it.
fn behind_word<'a>(bytes: &'a [u8], word: &[u8]) -> Option<&'a [u8]>
    ensures { MatchOption result (begins word.now bytes.now ≡ false)
        (λ rest. (begins word.now bytes.now ≡ true) × (bytes.now ≡ word.now ++ rest.now)) }
{
    bytes.strip_prefix(word)
}

/// The digits at the front, and the rest.
fn digits(bytes: &[u8], base: u32) -> (&[u8], &[u8])
    requires least { 2 ≤ base }
    requires most { base ≤ 36 }
    ensures { IsSpan (is_digit_of base) bytes.now result.0.now result.1.now }
{
    for (n, b) in bytes.iter().enumerate() {
        if !char::from(*b).is_digit(base) {
            return bytes.split_at(n);
        }
    }
    bytes.split_at(bytes.len())
}

/// The character whose number the bytes begin with, and what follows its semicolon.
fn number(bytes: &[u8], base: u32) -> Option<(char, &[u8])>
    requires least { 2 ≤ base }
    requires most { base ≤ 36 }
    ensures exact { MatchOption result ((past : ℕ) → numbered base past bytes.now ≡ None)
        (λ r. (past : ℕ) → numbered base past bytes.now ≡ Some
        (record { char = r.0; len = past + (length bytes.now - length r.1.now) })) }
    ensures semicolon { IfSome result (λ r. (front : List ℕ)
        × (bytes.now ≡ front ++ 59 ∷ r.1.now)) }
{
    let (digits, rest) = digits(bytes, base);
    let Some(rest) = byte(rest, b';') else {
        return None;
    };
    let Ok(text) = str::from_utf8(digits) else {
        return None;
    };
    let Ok(value) = u32::from_str_radix(text, base) else {
        return None;
    };
    let Some(c) = char::from_u32(value) else {
        return None;
    };
    Some((c, rest))
}
