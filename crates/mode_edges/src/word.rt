ghost use Rattle.std.specs.Prelude.{◌≡◌, ◌≤◌, ◌<◌, ◌+◌, ◌*◌, ℕ, List, MatchOption};
ghost use Rattle.std.specs.Char.{digit_value};
ghost use Rattle.vtr_base.specs.Spans.{Lacks};
ghost use Rattle.mode_edges.specs.PinWords.{Index, AreDigits, IsRange, IsPart, Word, IsWord};
ghost use Rattle.mode_edges.specs.Readers.{IsCut, capped, ReadsNumber, ReadsRange, ReadsPart, ReadsWord};

/// The ends of a range, the smaller first. An index alone is a range of one. An end of 2^32 - 1 or
/// more stands as 2^32 - 1, which no port and no count of instances reaches.
#[derive(Clone, Copy)]
pub struct Ends {
    pub low: u32,
    pub high: u32,
}

/// A pin word that is cut into what stands before its dot, the name of a port, and what stands in
/// brackets behind that name.
#[derive(Drop)]
pub(crate) struct PinWord<'a> {
    pub(crate) head: &'a [u8],
    pub(crate) port: &'a [u8],
    pub(crate) bits: Option<Ends>,
}

/// Reads a pin word.
pub(crate) fn word(text: &[u8]) -> Option<PinWord<'_>>
    ensures { MatchOption result ((w : Word) → IsWord text.now w → ⊥) (λ w. ReadsWord text.now w) }
{
    let (head, tail) = cut(text, b'.')?;
    if let Some(_second) = cut(tail, b'.') {
        return None;
    }
    let (port, bits) = part(tail)?;
    Some(PinWord { head, port, bits })
}

/// Reads a name, alone or with an index or a range in brackets behind it.
pub(crate) fn part(text: &[u8]) -> Option<(&[u8], Option<Ends>)>
    ensures { MatchOption result ((name : List ℕ) (index : Index) → IsPart text.now name index → ⊥)
        (λ r. ReadsPart text.now r.0.now r.1) }
{
    let Some((name, behind)) = cut(text, b'[') else {
        return Some((text, None));
    };
    let (last, inside) = behind.split_last()?;
    if *last != b']' {
        return None;
    }
    let ends = range(inside)?;
    Some((name, Some(ends)))
}

/// Reads `n` or `m:l`.
fn range(text: &[u8]) -> Option<Ends>
    ensures { MatchOption result ((low high : ℕ) → IsRange text.now low high → ⊥)
        (λ ends. ReadsRange text.now ends) }
{
    let Some((one, other)) = cut(text, b':') else {
        let n = number(text)?;
        return Some(Ends { low: n, high: n });
    };
    let m = number(one)?;
    let l = number(other)?;
    Some(Ends {
        low: m.min(l),
        high: m.max(l),
    })
}

/// The value of decimal digits, leading zeros among them, or 2^32 - 1 where it is larger.
fn number(text: &[u8]) -> Option<u32>
    ensures { MatchOption result ((n : ℕ) → AreDigits text.now n → ⊥)
        (λ value. ReadsNumber text.now value) }
{
    if text.is_empty() {
        return None;
    }
    let mut value: u32 = 0;
    for b in text {
        let Some(digit) = decimal_digit(*b) else {
            return None;
        };
        value = with_digit(value, digit);
    }
    Some(value)
}

/// The value of one decimal digit.
fn decimal_digit(b: u8) -> Option<u8>
    ensures { MatchOption result (10 ≤ digit_value b) (λ d. (d ≡ digit_value b) × (d < 10)) }
{
    match b {
        b'0'..=b'9' => Some(b - b'0'),
        _ => None,
    }
}

/// The number that has one digit more, or 2^32 - 1 where it is larger.
fn with_digit(value: u32, digit: u8) -> u32
    ensures { result ≡ capped (value * 10 + digit) }
{
    value.saturating_mul(10).saturating_add(u32::from(digit))
}

/// What stands before the first such byte, and what stands behind it.
fn cut(text: &[u8], at: u8) -> Option<(&[u8], &[u8])>
    ensures { MatchOption result (Lacks text.now at)
        (λ parts. IsCut text.now at parts.0.now parts.1.now) }
{
    let place = text.iter().position(|b| *b == at)?;
    Some((&text[..place], &text[place + 1..]))
}
