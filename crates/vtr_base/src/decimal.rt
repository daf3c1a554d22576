ghost use Rattle.std.specs.Prelude.{◌≡◌, ◌+◌, ◌*◌, ◌<◌, ◌≤◌, ◌^◌, ◌++◌, ℕ, OnOk, OnErr, MatchOption};
ghost use Rattle.std.specs.Option.{SomeIff};
ghost use Rattle.std.specs.Char.{digit_value};
ghost use Rattle.std.specs.Fmt.{decimal};
ghost use Rattle.vtr_base.specs.Decimal.{IsNumber};

use itoa::Buffer;
use std::alloc::AllocError;

/// Appends the decimal text of `n`, without leading zeros. Where memory runs out, nothing is
/// appended.
pub fn put_number(out: &mut Vec<u8>, n: u64) -> Result<(), AllocError>
    ensures ok { OnOk result (out.new.items ≡ out.old.items ++ decimal n) }
    ensures err { OnErr result (out.new.items ≡ out.old.items) }
{
    out.extend_from_slice(Buffer::new().format(n).as_bytes())
}

/// The value of 1 to 20 decimal digits, where it is below 2^64. Leading zeros count as digits.
pub fn read_number(text: &[u8]) -> Option<u64>
    ensures { MatchOption result ((n : ℕ) → IsNumber text.now n → ⊥) (λ n. IsNumber text.now n) }
{
    if text.is_empty() {
        return None;
    }
    if text.len() > 20 {
        return None;
    }
    let mut value: u64 = 0;
    for b in text {
        let Some(digit) = decimal_digit(*b) else {
            return None;
        };
        let Some(more) = with_digit(value, digit) else {
            return None;
        };
        value = more;
    }
    Some(value)
}

/// The value of one decimal digit.
fn decimal_digit(b: u8) -> Option<u8>
    ensures { MatchOption result (10 ≤ digit_value b) (λ d. (d ≡ digit_value b) × (d < 10)) }
{
    match b {
        b'0'..=b'9' => Some(b - b'0'),
        _ => None,
    }
}

/// The number that has one digit more.
fn with_digit(value: u64, digit: u8) -> Option<u64>
    ensures { SomeIff result (value * 10 + digit < 2 ^ 64) (value * 10 + digit) }
{
    value.checked_mul(10)?.checked_add(u64::from(digit))
}
