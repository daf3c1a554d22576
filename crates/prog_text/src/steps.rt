ghost use Rattle.std.specs.Prelude.{◌≡◌, ◌≢◌, ◌<◌, ◌^◌, ◌++◌, ℕ, List, IfSome, MatchOption};
ghost use Rattle.std.specs.Fmt.{decimal};
ghost use Rattle.prog_text.specs.Steps.{IsIndexed, IsFirstStep};

use crate::digits::number;
use crate::words::is_same;
use itoa::Buffer;
use vtr_base::cut;

/// A name, the number in brackets behind it, and what follows.
#[derive(Clone, Copy)]
pub(crate) struct NameIndex<'a> {
    pub(crate) name: &'a [u8],
    pub(crate) index: u32,
    pub(crate) rest: &'a [u8],
}

/// A step down from an instance, and what follows.
#[derive(Clone, Copy)]
pub(crate) struct StepText<'a> {
    pub(crate) mode: &'a [u8],
    pub(crate) child: &'a [u8],
    pub(crate) instance: u32,
    pub(crate) rest: &'a [u8],
}

/// The first step of a text, `/MODE:CHILD[i]`.
pub(crate) fn first_step(text: &[u8]) -> Option<StepText<'_>>
    ensures { MatchOption result ((mode child : List ℕ) (i : ℕ) (rest : List ℕ) → IsFirstStep
        text.now mode child i rest → ⊥) (λ s. IsFirstStep text.now s.mode.now s.child.now s.instance
        s.rest.now) }
{
    let (before, names) = cut(text, b'/')?;
    if !before.is_empty() {
        return None;
    }
    let (mode, behind) = cut(names, b':')?;
    let child = indexed(behind)?;
    Some(StepText {
        mode,
        child: child.name,
        instance: child.index,
        rest: child.rest,
    })
}

/// A text that begins with `NAME[i]`.
pub(crate) fn indexed(text: &[u8]) -> Option<NameIndex<'_>>
    ensures { MatchOption result ((name : List ℕ) (i : ℕ) (rest : List ℕ) → IsIndexed text.now name
        i rest → ⊥) (λ t. IsIndexed text.now t.name.now t.index t.rest.now) }
{
    let (name, behind) = cut(text, b'[')?;
    let (digits, rest) = cut(behind, b']')?;
    let index = plain_number(digits)?;
    Some(NameIndex { name, index, rest })
}

/// What follows `front`, where the text begins with it.
pub(crate) fn without_prefix<'a>(text: &'a [u8], front: &[u8]) -> Option<&'a [u8]>
    ensures { MatchOption result ((rest : List ℕ) → text.now ≢ front.now ++ rest)
        (λ rest. text.now ≡ front.now ++ rest.now) }
{
    text.strip_prefix(front)
}

/// The number that these digits write, without leading zeros.
fn plain_number(digits: &[u8]) -> Option<u32>
    ensures is { MatchOption result ((n : ℕ) → n < 2 ^ 32 → digits.now ≡ decimal n → ⊥)
        (λ n. digits.now ≡ decimal n) }
    ensures small { IfSome result (λ n. n < 2 ^ 32) }
{
    let value = number(digits)?;
    if !is_same(Buffer::new().format(value).as_bytes(), digits) {
        return None;
    }
    Some(value)
}
