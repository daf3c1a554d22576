ghost use Rattle.std.specs.Prelude.{◌≡◌, ◌++◌, ◌∷◌, [], ℕ, List, Option, MatchOption};
ghost use Rattle.meta_parts.specs.Forms.{IsOpenEnded, IsIndexed};
ghost use Rattle.meta_parts.specs.Seen.{index_of};

use vtr_base::cut;

/// A name, and what stands in brackets behind it where they end its text.
#[derive(Clone, Copy)]
pub(crate) struct IndexedName<'a> {
    pub name: &'a [u8],
    pub index: Option<&'a [u8]>,
}

/// A text as a name, with brackets or without.
pub(crate) fn split_index(text: &[u8]) -> Option<IndexedName<'_>>
    ensures { MatchOption result
        ((name : List ℕ) (index : Option (List ℕ)) → IsIndexed text.now name index → ⊥)
        (λ i. IsIndexed text.now i.name.now (index_of i)) }
{
    let Some(opened) = without_bracket(text) else {
        return Some(IndexedName {
            name: text,
            index: None,
        });
    };
    let (name, index) = cut(opened, b'[')?;
    Some(IndexedName {
        name,
        index: Some(index),
    })
}

/// The text without the `]` that ends it.
fn without_bracket(text: &[u8]) -> Option<&[u8]>
    ensures { MatchOption result (IsOpenEnded text.now) (λ r. text.now ≡ r.now ++ 93 ∷ []) }
{
    match text {
        [opened @ .., b']'] => Some(opened),
        _ => None,
    }
}
