ghost use Rattle.std.specs.Prelude.{◌≡◌, ◌⊎◌, ◌++◌, List, IfOk, IfErr, OnOk};
ghost use Rattle.meta_parts.specs.Seen.{seen};
ghost use Rattle.meta_lines.specs.declared.error.LineError.TheVariants.{OutOfMemory};
ghost use Rattle.meta_lines.specs.declared.types.Feature.{Feature as Said};
ghost use Rattle.meta_lines.specs.Features.{SaysFeatures, RefusesFeatures, ListsFeatures, RefusesList};

use crate::error::LineError;
use crate::forms::{are_named, push_features, word_forms};
use crate::types::Feature;
use meta_parts::{Line, listed_words, said_lines};
use sqlite_items::Items;
use std::alloc::{AllocError, Global};

/// The features that a text lists (`fasm_features`): words `NAME` or `NAME[n]`, divided by white
/// space or commas. A feature that is listed again stands again.
pub fn read_features(alloc: Global, text: &[u8]) -> Result<Items<Feature>, LineError>
    ensures ok { IfOk result (λ features. ListsFeatures text.now features) }
    ensures refused { IfErr result (λ e. (e ≡ OutOfMemory) ⊎ RefusesList text.now e) }
{
    let said = said_lines(alloc, text)?;
    let lines = said.as_slice();
    let mut features = Vec::new(alloc);
    for line in lines {
        read_line(alloc, line, &mut features)?;
    }
    Ok(Items::from_vec(features))
}

/// Appends the features of a line.
fn read_line(alloc: Global, line: &Line<'_>, features: &mut Vec<Feature>) -> Result<(), LineError>
    ensures ok { OnOk result ((here : List Said)
        × SaysFeatures features.old.items (seen line.now) here
        × (features.new.items ≡ features.old.items ++ here)) }
    ensures refused { IfErr result (λ e.
        (e ≡ OutOfMemory) ⊎ RefusesFeatures features.old.items (seen line.now) e) }
{
    let words = listed_words(alloc, line.text)?;
    let Some(forms) = word_forms(alloc, words.as_slice())? else {
        return Err(LineError::BadLine { line: line.number });
    };
    if !are_named(forms.as_slice()) {
        return Err(LineError::FeatureName { line: line.number });
    }
    push_features(alloc, features, forms.as_slice())?;
    Ok(())
}
