ghost use Rattle.std.specs.Prelude.{◌≡◌, ◌++◌, ◌∷◌, [], map, List, IfOk, OnOk};
ghost use Rattle.meta_lines.specs.declared.types.Feature.{Feature as Said};
ghost use Rattle.kept_features.specs.Firsts.{KeepsFirsts};
ghost use Rattle.kept_features.specs.Keys.{AreKeys};

use indexmap::IndexSet;
use meta_lines::Feature;
use std::alloc::{AllocError, Global};

/// A bit by the name of its feature.
#[derive(Clone, Copy, Debug, PartialEq, Eq, Hash)]
pub(crate) struct BitKey<'a> {
    pub(crate) name: &'a [u8],
    pub(crate) bit: u32,
}

/// The features of a choice that has those of two owners, or of one beside none: of several that
/// set the same bit, as `A`, `A[0]` and `A[00]`, the first is kept, as it stands.
pub fn kept_features<'a>(
    alloc: Global,
    first: &'a [Feature],
    second: &'a [Feature],
) -> Result<Vec<&'a Feature>, AllocError>
    ensures { IfOk result (λ kept. KeepsFirsts (first.now ++ second.now)
        (map (λ f. f.now) kept.items)) }
{
    let mut keys = IndexSet::new(alloc);
    let mut kept = Vec::new(alloc);
    for feature in first {
        keep(&mut keys, &mut kept, feature)?;
    }
    for feature in second {
        keep(&mut keys, &mut kept, feature)?;
    }
    Ok(kept)
}

/// Keeps a feature, unless one before it sets the same bit.
fn keep<'a>(
    keys: &mut IndexSet<BitKey<'a>>,
    kept: &mut Vec<&'a Feature>,
    feature: &'a Feature,
) -> Result<(), AllocError>
    ensures keys { OnOk result ((before : List Said) → AreKeys before keys.old.keys
        → AreKeys (before ++ feature.now ∷ []) keys.new.keys) }
    ensures kept { OnOk result ((before : List Said) → AreKeys before keys.old.keys
        → KeepsFirsts before (map (λ f. f.now) kept.old.items)
        → KeepsFirsts (before ++ feature.now ∷ []) (map (λ f. f.now) kept.new.items)) }
{
    let key = BitKey {
        name: feature.name.as_bytes(),
        bit: feature.bit,
    };
    if keys.contains(&key) {
        return Ok(());
    }
    keys.insert(key)?;
    kept.push(feature)?;
    Ok(())
}
