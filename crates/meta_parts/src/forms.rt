ghost use Rattle.std.specs.Prelude.{◌≡◌, ℕ, List, MatchOption};
ghost use Rattle.meta_parts.specs.Forms.{SaysBit, HasBit, SaysRange, HasRange, SaysInstance, HasChild};
ghost use Rattle.meta_parts.specs.Seen.{index_of};

use crate::index::{IndexedName, split_index};
use fasm_text::{Range, bit_number, read_range};
use text_parts::{Number, number_up_to};

/// A word that has the form of a feature: `NAME` or `NAME[n]`. Its name may be no feature's name.
#[derive(Clone, Copy)]
pub struct BitForm<'a> {
    /// The word as it stands.
    pub word: &'a [u8],
    pub name: &'a [u8],
    pub bit: u32,
}

/// A word that has the form of a field: `NAME`, `NAME[n]` or `NAME[hi:lo]`. Its name may be no
/// feature's name.
#[derive(Clone, Copy)]
pub struct RangeForm<'a> {
    pub name: &'a [u8],
    pub bits: Range,
}

/// A word that has the form `NAME[i]` of an instance of a child.
#[derive(Clone, Copy)]
pub struct ChildForm<'a> {
    pub name: &'a [u8],
    /// 4,294,967,295 stands for itself and for all numbers above it.
    pub instance: u32,
}

/// The word as a feature.
pub fn bit_form(word: &[u8]) -> Option<BitForm<'_>>
    ensures { MatchOption result ((name : List ℕ) (bit : ℕ) → HasBit word.now name bit → ⊥)
        (λ f. HasBit word.now f.name.now f.bit × (f.word.now ≡ word.now)) }
{
    let indexed = split_index(word)?;
    let bit = bit_of(&indexed)?;
    Some(BitForm {
        word,
        name: indexed.name,
        bit,
    })
}

/// The bit that an index says, or that none says.
fn bit_of(indexed: &IndexedName<'_>) -> Option<u32>
    ensures { MatchOption result ((bit : ℕ) → SaysBit (index_of indexed.now) bit → ⊥)
        (λ bit. SaysBit (index_of indexed.now) bit) }
{
    match indexed.index {
        None => Some(0),
        Some(index) => bit_number(index),
    }
}

/// The word as a field.
pub fn range_form(word: &[u8]) -> Option<RangeForm<'_>>
    ensures { MatchOption result ((name : List ℕ) (lo hi : ℕ) → HasRange word.now name lo hi → ⊥)
        (λ f. HasRange word.now f.name.now f.bits.lo f.bits.hi) }
{
    let indexed = split_index(word)?;
    let bits = range_of(&indexed)?;
    Some(RangeForm {
        name: indexed.name,
        bits,
    })
}

/// The bits that an index says, or that none says.
fn range_of(indexed: &IndexedName<'_>) -> Option<Range>
    ensures { MatchOption result
        ((lo hi : ℕ) → SaysRange (index_of indexed.now) lo hi → ⊥)
        (λ bits. SaysRange (index_of indexed.now) bits.lo bits.hi) }
{
    match indexed.index {
        None => Some(Range { lo: 0, hi: 0 }),
        Some(index) => read_range(index),
    }
}

/// The word as an instance of a child.
pub fn child_form(word: &[u8]) -> Option<ChildForm<'_>>
    ensures { MatchOption result
        ((name : List ℕ) (instance : ℕ) → HasChild word.now name instance → ⊥)
        (λ f. HasChild word.now f.name.now f.instance) }
{
    let indexed = split_index(word)?;
    if indexed.name.is_empty() {
        return None;
    }
    let instance = instance_of(&indexed)?;
    Some(ChildForm {
        name: indexed.name,
        instance,
    })
}

/// The instance that an index says.
fn instance_of(indexed: &IndexedName<'_>) -> Option<u32>
    ensures { MatchOption result
        ((instance : ℕ) → SaysInstance (index_of indexed.now) instance → ⊥)
        (λ instance. SaysInstance (index_of indexed.now) instance) }
{
    match number_up_to(indexed.index?, u64::from(u32::MAX)) {
        Number::NoDigits => None,
        Number::Over => Some(u32::MAX),
        Number::Value(instance) => Some(instance as u32),
    }
}
