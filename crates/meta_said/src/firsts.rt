ghost use Rattle.std.specs.Prelude.{◌≡◌, MatchOption};
ghost use Rattle.meta_said.specs.declared.types.MetaSort.{MetaSort as Sort};
ghost use Rattle.meta_said.specs.Firsts.{LacksName, IsFirstText};
ghost use Rattle.meta_said.specs.Owners.{name_of};

use crate::types::MetaSort;
use arch_types::Meta;
use vtr_base::Text;

/// The text of the first meta of that name.
pub(crate) fn first_text<'a>(metas: &'a [Meta], name: &[u8]) -> Option<&'a [u8]>
    ensures { MatchOption result (LacksName name.now metas.now)
        (λ text. IsFirstText name.now metas.now text.now) }
{
    for meta in metas {
        if meta.name.is(name) {
            return Some(meta.text.as_bytes());
        }
    }
    None
}

/// The sort of metadata that has that name.
pub(crate) fn sort_of(name: &Text) -> Option<MetaSort>
    ensures { MatchOption result ((sort : Sort) → name.now ≡ name_of sort → ⊥)
        (λ sort. name.now ≡ name_of sort) }
{
    if name.is(b"fasm_prefix") {
        return Some(MetaSort::Prefix);
    }
    if name.is(b"fasm_features") {
        return Some(MetaSort::Features);
    }
    if name.is(b"fasm_type") {
        return Some(MetaSort::Kind);
    }
    if name.is(b"fasm_lut") {
        return Some(MetaSort::Luts);
    }
    if name.is(b"fasm_params") {
        return Some(MetaSort::Params);
    }
    None
}
