ghost use Rattle.std.specs.Prelude.{ℕ, List, MatchOption};
ghost use Rattle.elem_attrs.specs.Attributes.{HasAttribute, LacksAttribute};
ghost use Rattle.text_parts.specs.Numerals.{Reads};
ghost use Rattle.elem_reading.specs.AttributeNumbers.{HasNumber};

use elem_attrs::attribute;
use elem_text::Elem;
use text_parts::{Number, number_up_to};

/// What the attribute of this name says as a whole number, where there is such an attribute. Where
/// an element has several of one name, the first counts.
pub fn number_attribute(elem: &Elem, name: &[u8], most: u64) -> Option<Number>
    ensures { MatchOption result (LacksAttribute elem.now name.now)
        (λ number. (value : List ℕ) × HasAttribute elem.now name.now value
        × Reads most value number) }
{
    let value = attribute(elem, name)?;
    Some(number_up_to(value.as_bytes(), most))
}

/// The whole number that the attribute of this name holds, where it holds one within the limit.
pub fn number_within(elem: &Elem, name: &[u8], most: u32) -> Option<u32>
    ensures { MatchOption result ((n : ℕ) → HasNumber elem.now name.now most n → ⊥)
        (λ n. HasNumber elem.now name.now most n) }
{
    match number_attribute(elem, name, u64::from(most)) {
        Some(Number::Value(number)) => Some(number as u32),
        Some(Number::NoDigits) => None,
        Some(Number::Over) => None,
        None => None,
    }
}
