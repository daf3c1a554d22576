ghost use Rattle.std.specs.Prelude.{◌≡◌, ◌<◌, ◌↔◌, ◌++◌, ◌^◌, ◌∷◌, [], ℕ, Bool, List, IsTrue, OnOk, MatchOption};
ghost use Rattle.vtr_base.specs.Spans.{Lacks};
ghost use Rattle.fasm_text.specs.Values.{IsSize, IsBased, IsLetterOf, IsValue, HaveBits, bits_of, bits_of_digits, low_bits, without_gaps};
ghost use Rattle.std.specs.Char.{digit_value};
ghost use Rattle.fasm_text.specs.Sets.{IsWithoutEnd};

use crate::digits::{are_digits, decimal, value_of_digit};
use std::alloc::AllocError;
use text_parts::{Number as Count, number_up_to};
use vtr_base::cut;

/// A value that a line gives.
#[derive(Clone, Copy)]
pub(crate) enum Value<'a> {
    /// No value is written, which says 1.
    One,
    Number(u128),
    /// Digits, with underscores or without, of which each stands for so many bits.
    Digits(u32, &'a [u8]),
}

/// Reads a value, which is one word.
pub(crate) fn read_value(text: &[u8]) -> Option<Value<'_>>
    ensures { MatchOption result ((bits : List Bool) → IsValue text.now bits → ⊥)
        (λ v. IsValue text.now (bits_of v)) }
{
    let Some((size, behind)) = cut(text, b'\'') else {
        return number(text);
    };
    if !is_size(size) {
        return None;
    }
    based(behind)
}

/// Decimal digits without underscores.
fn number(text: &[u8]) -> Option<Value<'_>>
    requires { Lacks text.now 39 }
    ensures { MatchOption result ((bits : List Bool) → IsValue text.now bits → ⊥)
        (λ v. IsValue text.now (bits_of v)) }
{
    match cut(text, b'_') {
        Some(_) => None,
        None => Some(Value::Number(decimal(text)?)),
    }
}

/// Whether what stands before the quote is a size or nothing.
fn is_size(size: &[u8]) -> bool
    ensures { IsTrue result ↔ IsSize size.now }
{
    if size.is_empty() {
        return true;
    }
    match number_up_to(size, 0) {
        Count::NoDigits => false,
        _ => true,
    }
}

/// The letter of a base and digits of it.
fn based(behind: &[u8]) -> Option<Value<'_>>
    ensures { MatchOption result ((bits : List Bool) → IsBased behind.now bits → ⊥)
        (λ v. IsBased behind.now (bits_of v)) }
{
    let (letter, digits) = behind.split_first()?;
    of_letter(*letter, digits)
}

/// Digits of the base that a letter stands for.
fn of_letter(letter: u8, digits: &[u8]) -> Option<Value<'_>>
    ensures { MatchOption result ((bits : List Bool) → IsBased (letter ∷ digits.now) bits → ⊥)
        (λ v. IsBased (letter ∷ digits.now) (bits_of v)) }
{
    match letter {
        b'd' => Some(Value::Number(decimal(digits)?)),
        b'b' => of_radix(1, 2, digits),
        b'o' => of_radix(3, 8, digits),
        b'h' => of_radix(4, 16, digits),
        _ => None,
    }
}

/// Digits of a radix, of which each stands for so many bits.
fn of_radix(width: u32, radix: u8, digits: &[u8]) -> Option<Value<'_>>
    requires { radix ≡ 2 ^ width }
    ensures { MatchOption result ((bits : List Bool) → HaveBits width digits.now bits → ⊥)
        (λ v. HaveBits width digits.now (bits_of v)) }
{
    if are_digits(digits, radix) {
        Some(Value::Digits(width, digits))
    } else {
        None
    }
}

/// Puts the bits of a value into `bits`, the lowest first, whose old bits are dropped. Bits that
/// are off may be left out at the end.
pub(crate) fn put_bits(bits: &mut Vec<bool>, value: &Value<'_>) -> Result<(), AllocError>
    ensures { OnOk result (IsWithoutEnd bits.new.items (bits_of value.now)) }
{
    bits.clear();
    match value {
        Value::One => push_one(bits)?,
        Value::Number(number) => push_number(bits, *number)?,
        Value::Digits(width, digits) => push_digits(bits, digits, *width)?,
    }
    Ok(())
}

fn push_one(bits: &mut Vec<bool>) -> Result<(), AllocError>
    ensures { OnOk result (bits.new.items ≡ bits.old.items ++ bits_of Value.One) }
{
    bits.push(true)?;
    Ok(())
}

/// Appends the bits of a number, the lowest first, up to the highest that is on.
fn push_number(bits: &mut Vec<bool>, number: u128) -> Result<(), AllocError>
    requires { bits.old.items ≡ [] }
    ensures { OnOk result (IsWithoutEnd bits.new.items (low_bits 128 number)) }
{
    let mut rest = number;
    for done in 0..128u32 {
        if rest == 0 {
            return Ok(());
        }
        bits.push(rest % 2 == 1)?;
        rest /= 2;
    }
    Ok(())
}

/// Appends the bits of digits, the lowest first.
fn push_digits(bits: &mut Vec<bool>, digits: &[u8], width: u32) -> Result<(), AllocError>
    ensures { OnOk result
        (bits.new.items ≡ bits.old.items ++ bits_of_digits width (without_gaps digits.now)) }
{
    for at in (0..digits.len()).rev() {
        push_digit(bits, digits[at], width)?;
    }
    Ok(())
}

/// Appends the bits of one digit; an underscore has none.
fn push_digit(bits: &mut Vec<bool>, byte: u8, width: u32) -> Result<(), AllocError>
    ensures gap { byte ≡ 95 → OnOk result (bits.new.items ≡ bits.old.items) }
    ensures digit { (byte ≡ 95 → ⊥) →
        OnOk result (bits.new.items ≡ bits.old.items ++ low_bits width (digit_value byte)) }
{
    if byte == b'_' {
        return Ok(());
    }
    push_low(bits, value_of_digit(byte), width)
}

/// Appends the lowest bits of a number, the lowest first.
fn push_low(bits: &mut Vec<bool>, number: u8, width: u32) -> Result<(), AllocError>
    ensures { OnOk result (bits.new.items ≡ bits.old.items ++ low_bits width number) }
{
    let mut rest = number;
    for done in 0..width {
        bits.push(rest % 2 == 1)?;
        rest /= 2;
    }
    Ok(())
}
