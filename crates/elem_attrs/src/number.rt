ghost use Rattle.std.specs.Prelude.{◌≡◌, ◌+◌, ◌*◌, ◌<◌, ◌≤◌, ◌^◌, pos, neg_ℤ};
ghost use Rattle.std.specs.Option.{SomeIff};
ghost use Rattle.std.specs.Char.{digit_value};
ghost use Rattle.elem_attrs.specs.Numbers.{number_up_to, signed_number};

/// The number that decimal digits spell, where it is at most `most`. There may be any number of
/// zeros before it; a sign is no digit.
pub fn number_up_to(text: &[u8], most: u64) -> Option<u64>
    ensures { result ≡ number_up_to most text.now }
{
    if text.is_empty() {
        return None;
    }
    let mut value = 0;
    for b in text {
        let Some(more) = with_digit(value, *b, most) else {
            return None;
        };
        value = more;
    }
    Some(value)
}

/// The number that has one digit more, where the byte is one and the number isn't too large.
fn with_digit(value: u64, b: u8, most: u64) -> Option<u64>
    requires { value ≤ most }
    ensures { SomeIff result ((digit_value b < 10) × (value * 10 + digit_value b ≤ most))
        (value * 10 + digit_value b) }
{
    let digit = decimal_digit(b)?;
    let more = value.checked_mul(10)?.checked_add(digit)?;
    if more <= most { Some(more) } else { None }
}

/// The value of one decimal digit.
fn decimal_digit(b: u8) -> Option<u64>
    ensures { SomeIff result (digit_value b < 10) (digit_value b) }
{
    match b {
        b'0'..=b'9' => Some(u64::from(b - b'0')),
        _ => None,
    }
}

/// The number of 64 bits that decimal digits spell, with or without one `-` before them.
pub fn signed_number(text: &[u8]) -> Option<i64>
    ensures { result ≡ signed_number text.now }
{
    match text {
        [b'-', digits @ ..] => Some(negated(number_up_to(digits, 1 << 63)?)),
        _ => Some(number_up_to(text, i64::MAX as u64)? as i64),
    }
}

fn negated(n: u64) -> i64
    requires { n ≤ 2 ^ 63 }
    ensures { result ≡ neg_ℤ (pos n) }
{
    if n == 1 << 63 { i64::MIN } else { -(n as i64) }
}
