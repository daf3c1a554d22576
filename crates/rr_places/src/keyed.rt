ghost use Rattle.std.specs.Prelude.{◌≡◌, ◌++◌, ◌∷◌, [], OnOk, MatchOption};
ghost use Rattle.vtr_base.specs.Lists.{Has};
ghost use Rattle.rr_places.specs.Keyed.{IsEquality};

use indexmap::IndexMap;
use std::alloc::AllocError;
use std::hash::Hash;

/// What a map has for a key.
pub(crate) fn find<'a, K: Copy + Eq + Hash + Drop, V>(
    map: &'a IndexMap<K, V>,
    key: K,
) -> Option<&'a V>
    requires { IsEquality K.eq }
    ensures { MatchOption result ((value : V) → Has map.now.entries (key, value) → ⊥)
        (λ value. Has map.now.entries (key, value.now)) }
{
    map.get(&key)
}

/// Adds a value under a new key.
pub(crate) fn add<K: Copy + Eq + Hash + Drop, V: Drop>(
    map: &mut IndexMap<K, V>,
    key: K,
    value: V,
) -> Result<(), AllocError>
    requires same { IsEquality K.eq }
    requires new { (other : V) → Has map.old.entries (key, other) → ⊥ }
    ensures { OnOk result (map.new.entries ≡ map.old.entries ++ (key, value) ∷ []) }
{
    map.insert(key, value)?;
    Ok(())
}
