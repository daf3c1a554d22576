ghost use Rattle.std.specs.Prelude.{◌≡◌, ◌≤◌, ◌<◌, ◌↔◌, ◌+◌, ◌*◌, ◌^◌, ℕ, IsTrue, MatchOption};
ghost use Rattle.std.specs.Char.{digit_value};
ghost use Rattle.std.specs.Option.{SomeIff};
ghost use Rattle.std.specs.Str.Parse.{IsNumeral};
ghost use Rattle.fasm_text.specs.Values.{without_gaps, IsDecimal};

/// The value of a digit or a letter, from 0 for `0` to 35 for `z` and `Z`; 36 for another byte.
pub(crate) fn value_of_digit(byte: u8) -> u8
    ensures { result ≡ digit_value byte }
{
    match byte {
        b'0'..=b'9' => byte - b'0',
        b'A'..=b'Z' => byte - b'A' + 10,
        b'a'..=b'z' => byte - b'a' + 10,
        _ => 36,
    }
}

/// Whether a text is one digit of the radix or more, with underscores or without.
pub(crate) fn are_digits(text: &[u8], radix: u8) -> bool
    ensures { IsTrue result ↔ IsNumeral radix (without_gaps text.now) }
{
    let mut some = false;
    for byte in text {
        if *byte == b'_' {
            continue;
        }
        if value_of_digit(*byte) >= radix {
            return false;
        }
        some = true;
    }
    some
}

/// The number that decimal digits write, where it is below 2^128. Underscores are passed over.
pub(crate) fn decimal(text: &[u8]) -> Option<u128>
    ensures { MatchOption result ((n : ℕ) → IsDecimal text.now n → ⊥) (λ n. IsDecimal text.now n) }
{
    if !are_digits(text, 10) {
        return None;
    }
    let mut value: u128 = 0;
    for byte in text {
        value = with_byte(value, *byte)?;
    }
    Some(value)
}

/// The number that has one digit more, where it is below 2^128; an underscore adds none.
fn with_byte(value: u128, byte: u8) -> Option<u128>
    ensures gap { byte ≡ 95 → result ≡ Some value }
    ensures digit { (byte ≡ 95 → ⊥) →
        SomeIff result (value * 10 + digit_value byte < 2 ^ 128) (value * 10 + digit_value byte) }
{
    if byte == b'_' {
        return Some(value);
    }
    value
        .checked_mul(10)?
        .checked_add(u128::from(value_of_digit(byte)))
}
