ghost use Rattle.std.specs.Prelude.{◌≡◌, ◌≤◌, ◌<◌, ◌+◌, ◌*◌, ◌↔◌, min, IfOk, IsTrue, MatchOption, length};
ghost use Rattle.std.specs.Char.{digit_value};
ghost use Rattle.std.specs.List.{AllPass};
ghost use Rattle.std.specs.Str.Parse.{IsNumeral, digits_value};
ghost use Rattle.prog_text.specs.Sayings.{is_bit};
ghost use Rattle.prog_text.specs.Settings.{table_of};

use std::alloc::{AllocError, Global};
use vtr_base::Bits;

/// The value of decimal digits of any length, or 2^32 - 1 where it is larger.
pub fn number(text: &[u8]) -> Option<u32>
    ensures { MatchOption result (IsNumeral 10 text.now → ⊥)
        (λ value. IsNumeral 10 text.now × (value ≡ min (digits_value 10 text.now) 4294967295)) }
{
    if text.is_empty() {
        return None;
    }
    let mut value: u32 = 0;
    for b in text {
        let Some(digit) = decimal_digit(*b) else {
            return None;
        };
        value = with_digit(value, digit);
    }
    Some(value)
}

/// The value of one decimal digit.
fn decimal_digit(b: u8) -> Option<u8>
    ensures { MatchOption result (10 ≤ digit_value b) (λ d. (d ≡ digit_value b) × (d < 10)) }
{
    match b {
        b'0'..=b'9' => Some(b - b'0'),
        _ => None,
    }
}

/// The number that has one digit more, or 2^32 - 1 where it is larger.
fn with_digit(value: u32, digit: u8) -> u32
    ensures { result ≡ min (value * 10 + digit) 4294967295 }
{
    value.saturating_mul(10).saturating_add(u32::from(digit))
}

/// Whether a text has the digits 0 and 1 alone.
pub(crate) fn are_bits(text: &[u8]) -> bool
    ensures { IsTrue result ↔ AllPass is_bit text.now }
{
    text.iter().all(|b| *b == b'0' || *b == b'1')
}

/// The table that digits write, the highest bit first.
pub(crate) fn table(alloc: Global, digits: &[u8]) -> Result<Bits, AllocError>
    ensures { IfOk result (λ bits. bits ≡ table_of digits.now) }
{
    let Ok(len) = u32::try_from(digits.len()) else {
        return Err(AllocError);
    };
    let mut bits = Bits::zeros(alloc, len)?;
    let mut place = len;
    for digit in digits {
        place -= 1;
        bits.put(place, *digit == b'1');
    }
    Ok(bits)
}
