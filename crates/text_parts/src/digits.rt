ghost use Rattle.std.specs.Prelude.{◌≡◌, ◌<◌, ◌≤◌, ◌+◌, ◌*◌, None, MatchOption};
ghost use Rattle.std.specs.Char.{digit_value};
ghost use Rattle.std.specs.Option.{SomeIff};
ghost use Rattle.text_parts.specs.Numerals.{Reads};

/// What a text says as a whole number.
#[derive(Clone, Copy, Debug, PartialEq, Eq)]
pub enum Number {
    /// It isn't one decimal digit or more and nothing else.
    NoDigits,
    /// It is decimal digits, and their value is over the limit.
    Over,
    /// It is decimal digits with this value.
    Value(u64),
}

/// Reads decimal digits, as many as there are, with zeros before them or not. A sign is no digit.
pub fn number_up_to(text: &[u8], most: u64) -> Number
    ensures { Reads most text.now result }
{
    if text.is_empty() {
        return Number::NoDigits;
    }
    let mut value = Some(0);
    for byte in text {
        let Some(digit) = decimal_digit(*byte) else {
            return Number::NoDigits;
        };
        value = with_digit(value, digit, most);
    }
    match value {
        Some(value) => Number::Value(value),
        None => Number::Over,
    }
}

/// The value of one decimal digit.
fn decimal_digit(byte: u8) -> Option<u8>
    ensures { MatchOption result (10 ≤ digit_value byte)
        (λ d. (d ≡ digit_value byte) × (d < 10)) }
{
    match byte {
        b'0'..=b'9' => Some(byte - b'0'),
        _ => None,
    }
}

/// The number that has one digit more, where it isn't over the limit; none where it was already.
fn with_digit(value: Option<u64>, digit: u8, most: u64) -> Option<u64>
    ensures { MatchOption value (result ≡ None)
        (λ v. SomeIff result (v * 10 + digit ≤ most) (v * 10 + digit)) }
{
    let more = value?.checked_mul(10)?.checked_add(u64::from(digit))?;
    if more <= most { Some(more) } else { None }
}
