ghost use Rattle.std.specs.Prelude.{◌≡◌, ◌+◌, ◌-◌, ◌*◌, ◌^◌, ◌<◌, ◌≤◌, ◌↔◌, ℕ, List, min, IsTrue, MatchOption};
ghost use Rattle.std.specs.Char.{digit_value};
ghost use Rattle.std.specs.Str.Parse.{IsNumeral, digits_value};
ghost use Rattle.arch_rules.specs.Numbers.{SpellsNumber, IsCount, IsLarge, IsOne, IsOverEight, IsCoordinate, IsNegated, IsPriority};

/// The number that decimal digits spell, or `most` where it is larger. There may be zeros before
/// it.
pub fn number_up_to(text: &[u8], most: u64) -> Option<u64>
    ensures { MatchOption result (IsNumeral 10 text.now → ⊥)
        (λ n. IsNumeral 10 text.now × (n ≡ min (digits_value 10 text.now) most)) }
{
    if text.is_empty() {
        return None;
    }
    let mut value: u64 = 0;
    for b in text {
        let Some(digit) = decimal_digit(*b) else {
            return None;
        };
        value = with_digit(value, digit, most);
    }
    Some(value)
}

/// The value of one decimal digit.
fn decimal_digit(b: u8) -> Option<u8>
    ensures { MatchOption result (10 ≤ digit_value b) (λ d. (d ≡ digit_value b) × (d < 10)) }
{
    match b {
        b'0'..=b'9' => Some(b - b'0'),
        _ => None,
    }
}

/// The number that has one digit more, and at most `most`.
fn with_digit(value: u64, digit: u8, most: u64) -> u64
    ensures { result ≡ min (value * 10 + digit) most }
{
    let more = value.saturating_mul(10).saturating_add(u64::from(digit));
    more.min(most)
}

/// Whether the text is a number of pins, instances or locations: at least 1.
pub fn is_count(text: &[u8]) -> bool
    ensures { IsTrue result ↔ IsCount text.now }
{
    match number_up_to(text, 1) {
        Some(n) => n == 1,
        None => false,
    }
}

/// Whether the text is a number over 65,536.
pub fn is_large(text: &[u8]) -> bool
    ensures { IsTrue result ↔ IsLarge text.now }
{
    match number_up_to(text, 65537) {
        Some(n) => n == 65537,
        None => false,
    }
}

/// Whether the text is the number 1.
pub fn is_one(text: &[u8]) -> bool
    ensures { IsTrue result ↔ IsOne text.now }
{
    match number_up_to(text, 2) {
        Some(n) => n == 1,
        None => false,
    }
}

/// Whether the text is a number over 8.
pub fn is_over_eight(text: &[u8]) -> bool
    ensures { IsTrue result ↔ IsOverEight text.now }
{
    match number_up_to(text, 9) {
        Some(n) => n == 9,
        None => false,
    }
}

/// Whether the text is a number below 2^32.
pub fn is_coordinate(text: &[u8]) -> bool
    ensures { IsTrue result ↔ IsCoordinate text.now }
{
    match number_up_to(text, 0x1_0000_0000) {
        Some(n) => n < 0x1_0000_0000,
        None => false,
    }
}

/// What stands behind a minus.
pub fn behind_minus(text: &[u8]) -> Option<&[u8]>
    ensures { MatchOption result ((digits : List ℕ) → IsNegated text.now digits → ⊥)
        (λ digits. IsNegated text.now digits.now) }
{
    let (first, rest) = text.split_first()?;
    if *first == b'-' { Some(rest) } else { None }
}

/// Whether the text is a number of 64 bits with a sign, which has no plus.
pub fn is_priority(text: &[u8]) -> bool
    ensures { IsTrue result ↔ IsPriority text.now }
{
    match behind_minus(text) {
        Some(digits) => is_at_most(digits, 0x8000_0000_0000_0000),
        None => is_at_most(text, 0x7fff_ffff_ffff_ffff),
    }
}

/// Whether the text is a number of at most so much.
fn is_at_most(text: &[u8], most: u64) -> bool
    requires { most < 2 ^ 64 - 1 }
    ensures { IsTrue result ↔ ((n : ℕ) × SpellsNumber text.now n × (n ≤ most)) }
{
    match number_up_to(text, most + 1) {
        Some(n) => n <= most,
        None => false,
    }
}
