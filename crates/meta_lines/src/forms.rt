ghost use Rattle.std.specs.Prelude.{◌≡◌, ◌++◌, ◌↔◌, List, map, IsTrue, IfOk, OnOk, MatchOption};
ghost use Rattle.std.specs.List.{All};
ghost use Rattle.meta_lines.specs.declared.types.Feature.{Feature as Said};
ghost use Rattle.meta_lines.specs.Each.{Each};
ghost use Rattle.fasm_text.specs.Names.{IsFeatureName};
ghost use Rattle.meta_lines.specs.Features.{IsForm, HasOwnForm, AreNamed, form_of};
ghost use Rattle.meta_lines.specs.Muxes.{IsPart};

use crate::types::Feature;
use fasm_text::is_feature_name;
use meta_parts::{BitForm, bit_form, names_are_texts, only_word, text_of};
use std::alloc::{AllocError, Global};

/// Each word as a feature, where each has the form of one.
pub(crate) fn word_forms<'a>(
    alloc: Global,
    words: &[&'a [u8]],
) -> Result<Option<Vec<BitForm<'a>>>, AllocError>
    ensures { IfOk result (λ r. MatchOption r
        ((fs : List Said) → Each IsForm (map (λ w. w.now) words.now) fs → ⊥)
        (λ forms. Each IsForm (map (λ w. w.now) words.now) (map form_of forms.items))) }
{
    let mut forms = Vec::new(alloc);
    for word in words {
        let Some(form) = bit_form(*word) else {
            return Ok(None);
        };
        forms.push(form)?;
    }
    Ok(Some(forms))
}

/// Each part as a feature, where each is one word of its form.
pub(crate) fn part_forms<'a>(
    alloc: Global,
    parts: &[&'a [u8]],
) -> Result<Option<Vec<BitForm<'a>>>, AllocError>
    ensures { IfOk result (λ r. MatchOption r
        ((fs : List Said) → Each IsPart (map (λ w. w.now) parts.now) fs → ⊥)
        (λ forms. Each IsPart (map (λ w. w.now) parts.now) (map form_of forms.items))) }
{
    let mut forms = Vec::new(alloc);
    for part in parts {
        let Some(form) = part_form(alloc, *part)? else {
            return Ok(None);
        };
        forms.push(form)?;
    }
    Ok(Some(forms))
}

/// The part as a feature.
fn part_form<'a>(alloc: Global, part: &'a [u8]) -> Result<Option<BitForm<'a>>, AllocError>
    ensures { IfOk result (λ r. MatchOption r ((f : Said) → IsPart part.now f → ⊥)
        (λ form. IsPart part.now (form_of form))) }
{
    let Some(word) = only_word(alloc, part)? else {
        return Ok(None);
    };
    Ok(bit_form(word))
}

/// Whether the names of all are features' names.
pub(crate) fn are_named(forms: &[BitForm<'_>]) -> bool
    ensures { IsTrue result ↔ AreNamed (map form_of forms.now) }
{
    for form in forms {
        if !is_feature_name(form.name) {
            return false;
        }
    }
    true
}

/// Appends the features.
pub(crate) fn push_features(
    alloc: Global,
    features: &mut Vec<Feature>,
    forms: &[BitForm<'_>],
) -> Result<(), AllocError>
    requires forms { All HasOwnForm (map form_of forms.now) }
    requires named { AreNamed (map form_of forms.now) }
    ensures { OnOk result (features.new.items ≡ features.old.items ++ map form_of forms.now) }
{
    for form in forms {
        features.push(feature_of(alloc, form)?)?;
    }
    Ok(())
}

/// The feature of a form.
fn feature_of(alloc: Global, form: &BitForm<'_>) -> Result<Feature, AllocError>
    requires form { HasOwnForm (form_of form.now) }
    requires named { IsFeatureName form.now.name.now }
    ensures { IfOk result (λ feature. feature ≡ form_of form.now) }
{
    names_are_texts();
    Ok(Feature {
        name: text_of(alloc, form.name)?,
        bit: form.bit,
        text: text_of(alloc, form.word)?,
    })
}
