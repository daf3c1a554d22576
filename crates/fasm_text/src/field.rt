ghost use Rattle.std.specs.Prelude.{◌≡◌, ◌++◌, ◌∷◌, [], ℕ, List, MatchOption};
ghost use Rattle.vtr_base.specs.Spans.{Lacks};
ghost use Rattle.fasm_text.specs.Fields.{IsBitNumber, IsRange, IsBracketed, IsField};

use crate::names::is_feature_name;
use text_parts::{Number, number_up_to};
use vtr_base::cut;

/// The greatest number of a bit.
const LAST_BIT: u64 = 1_048_575;

/// The bits of a field, from the lowest to the highest.
#[derive(Clone, Copy)]
pub struct Range {
    pub lo: u32,
    pub hi: u32,
}

/// A name and the bits behind it.
#[derive(Clone, Copy)]
pub(crate) struct Field<'a> {
    pub name: &'a [u8],
    pub range: Range,
}

/// Reads a field, which is one word.
pub(crate) fn read_field(text: &[u8]) -> Option<Field<'_>>
    ensures { MatchOption result ((name : List ℕ) (lo hi : ℕ) → IsField text.now name lo hi → ⊥)
        (λ f. IsField text.now f.name.now f.range.lo f.range.hi) }
{
    let Some((name, behind)) = cut(text, b'[') else {
        return plain(text);
    };
    if !is_feature_name(name) {
        return None;
    }
    let range = bracketed(behind)?;
    Some(Field { name, range })
}

/// A name alone, which has bit 0.
fn plain(text: &[u8]) -> Option<Field<'_>>
    requires { Lacks text.now 91 }
    ensures { MatchOption result ((name : List ℕ) (lo hi : ℕ) → IsField text.now name lo hi → ⊥)
        (λ f. IsField text.now f.name.now f.range.lo f.range.hi) }
{
    if !is_feature_name(text) {
        return None;
    }
    Some(Field {
        name: text,
        range: Range { lo: 0, hi: 0 },
    })
}

/// The bits in brackets, read from behind the opening one.
fn bracketed(behind: &[u8]) -> Option<Range>
    ensures { MatchOption result ((lo hi : ℕ) → IsBracketed behind.now lo hi → ⊥)
        (λ r. IsBracketed behind.now r.lo r.hi) }
{
    let (last, inside) = behind.split_last()?;
    if *last != b']' {
        return None;
    }
    read_range(inside)
}

/// The bits that stand in brackets behind a name: one bit, or the highest and the lowest.
pub fn read_range(inside: &[u8]) -> Option<Range>
    ensures { MatchOption result ((lo hi : ℕ) → IsRange inside.now lo hi → ⊥)
        (λ r. IsRange inside.now r.lo r.hi) }
{
    let Some((high, low)) = cut(inside, b':') else {
        let bit = bit_number(inside)?;
        return Some(Range { lo: bit, hi: bit });
    };
    let hi = bit_number(high)?;
    let lo = bit_number(low)?;
    if lo <= hi {
        Some(Range { lo, hi })
    } else {
        None
    }
}

/// The number of a bit: decimal digits of any length, of a number below 2^20.
pub fn bit_number(text: &[u8]) -> Option<u32>
    ensures { MatchOption result ((n : ℕ) → IsBitNumber text.now n → ⊥)
        (λ n. IsBitNumber text.now n) }
{
    match number_up_to(text, LAST_BIT) {
        Number::Value(bit) => Some(bit as u32),
        _ => None,
    }
}
