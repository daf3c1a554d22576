ghost use Rattle.std.specs.Prelude.{◌≡◌, ◌⊎◌, ◌↔◌, None, IsTrue, IfOk, IfErr};
ghost use Rattle.meta_lines.specs.declared.error.LineError.TheVariants.{OutOfMemory};
ghost use Rattle.meta_lines.specs.Features.{ListsFeatures, RefusesList};
ghost use Rattle.meta_lines.specs.Fields.{ListsParams, RefusesParams};
ghost use Rattle.meta_lines.specs.Only.{SaysType, RefusesType};
ghost use Rattle.meta_lines.specs.Prefixes.{ArePrefixes, RefusesPrefixes};
ghost use Rattle.meta_said.specs.Firsts.{ReadsInto};
ghost use Rattle.meta_said.specs.Owners.{SaysFields, RefusesFields, HoldsLuts, IsKind, Says, IsRefused, StepsTo};

use crate::firsts::{first_text, sort_of};
use crate::types::{LutFields, MetaSort, OwnerMeta};
use arch_types::Meta;
use meta_lines::{
    Feature, LineError, LutType, ParamField, one_meaning, read_children, read_features, read_lut,
    read_params, read_prefix, read_type,
};
use sqlite_items::Items;
use std::alloc::{AllocError, Global};
use vtr_base::Text;

/// What the metadata of an owner says: of a pb_type with `count` instances, or of a mode, where
/// `count` is `None`. Metas are read in file order; of several of one name only the first counts,
/// and those of other names say nothing.
pub fn read_owner(alloc: Global, metas: &[Meta], count: Option<u32>) -> Result<OwnerMeta, LineError>
    ensures ok { IfOk result (λ said. Says count metas.now said) }
    ensures refused { IfErr result (λ e. (e ≡ OutOfMemory) ⊎ IsRefused count metas.now e) }
{
    one_meaning();
    let kind = lut_kind(alloc, metas)?;
    let mut said = OwnerMeta {
        prefixes: None,
        features: None,
        lut_type: None,
        luts: None,
        params: None,
    };
    for meta in metas {
        read_meta(alloc, kind, count, meta, &mut said)?;
    }
    Ok(said)
}

/// Whether an owner holds the LUTs under it: it has a `fasm_lut` and a `fasm_type`.
pub fn holds_luts(metas: &[Meta]) -> bool
    ensures { IsTrue result ↔ HoldsLuts metas.now }
{
    first_text(metas, b"fasm_type").is_some() && first_text(metas, b"fasm_lut").is_some()
}

/// The type of an owner's LUTs, where its `fasm_type` says one.
fn lut_kind(alloc: Global, metas: &[Meta]) -> Result<Option<LutType>, AllocError>
    ensures { IfOk result (λ kind. IsKind metas.now kind) }
{
    one_meaning();
    let Some(text) = first_text(metas, b"fasm_type") else {
        return Ok(None);
    };
    match read_type(alloc, text) {
        Ok(kind) => Ok(Some(kind)),
        Err(e) => no_kind(e),
    }
}

/// No type, where a text was refused and memory didn't run out.
fn no_kind(e: LineError) -> Result<Option<LutType>, AllocError>
    ensures { IfOk result (λ kind. (kind ≡ None) × (e ≡ OutOfMemory → ⊥)) }
{
    match e {
        LineError::OutOfMemory => Err(AllocError),
        _ => Ok(None),
    }
}

/// Adds what a meta says, where it is the first of its name: where nothing of its sort was said.
fn read_meta(
    alloc: Global,
    kind: Option<LutType>,
    count: Option<u32>,
    meta: &Meta,
    said: &mut OwnerMeta,
) -> Result<(), LineError>
    ensures { StepsTo kind count meta.now said.old said.new result }
{
    let text = meta.text.as_bytes();
    match sort_of(&meta.name) {
        Some(MetaSort::Prefix) => match count {
            Some(count) => add_prefixes(alloc, text, count, &mut said.prefixes),
            None => Ok(()),
        },
        Some(MetaSort::Features) => add_features(alloc, text, &mut said.features),
        Some(MetaSort::Kind) => add_type(alloc, text, &mut said.lut_type),
        Some(MetaSort::Luts) => match kind {
            Some(kind) => add_luts(alloc, text, kind, &mut said.luts),
            None => Ok(()),
        },
        Some(MetaSort::Params) => add_params(alloc, text, &mut said.params),
        None => Ok(()),
    }
}

/// Reads prefixes, unless some were read.
fn add_prefixes(
    alloc: Global,
    text: &[u8],
    count: u32,
    found: &mut Option<Items<Text>>,
) -> Result<(), LineError>
    ensures { ReadsInto (λ text prefixes. ArePrefixes text count prefixes)
        (λ text e. RefusesPrefixes text count e) text.now found.old found.new result }
{
    if found.is_none() {
        *found = Some(read_prefix(alloc, text, count)?);
    }
    Ok(())
}

/// Reads features, unless some were read.
fn add_features(
    alloc: Global,
    text: &[u8],
    found: &mut Option<Items<Feature>>,
) -> Result<(), LineError>
    ensures { ReadsInto ListsFeatures RefusesList text.now found.old found.new result }
{
    if found.is_none() {
        *found = Some(read_features(alloc, text)?);
    }
    Ok(())
}

/// Reads the type of LUTs, unless it was read.
fn add_type(alloc: Global, text: &[u8], found: &mut Option<LutType>) -> Result<(), LineError>
    ensures { ReadsInto SaysType RefusesType text.now found.old found.new result }
{
    if found.is_none() {
        *found = Some(read_type(alloc, text)?);
    }
    Ok(())
}

/// Reads the fields of LUTs, unless some were read.
fn add_luts(
    alloc: Global,
    text: &[u8],
    kind: LutType,
    found: &mut Option<LutFields>,
) -> Result<(), LineError>
    ensures { ReadsInto (SaysFields kind) (RefusesFields kind) text.now found.old found.new
        result }
{
    if found.is_none() {
        *found = Some(read_fields(alloc, text, kind)?);
    }
    Ok(())
}

/// The fields of LUTs, whose type is given.
fn read_fields(alloc: Global, text: &[u8], kind: LutType) -> Result<LutFields, LineError>
    ensures ok { IfOk result (λ fields. SaysFields kind text.now fields) }
    ensures refused { IfErr result (λ e. (e ≡ OutOfMemory) ⊎ RefusesFields kind text.now e) }
{
    match kind {
        LutType::Lut => Ok(LutFields::One(read_lut(alloc, text)?)),
        LutType::SplitLut => Ok(LutFields::Children(read_children(alloc, text)?)),
    }
}

/// Reads the fields of parameters, unless some were read.
fn add_params(
    alloc: Global,
    text: &[u8],
    found: &mut Option<Items<ParamField>>,
) -> Result<(), LineError>
    ensures { ReadsInto ListsParams RefusesParams text.now found.old found.new result }
{
    if found.is_none() {
        *found = Some(read_params(alloc, text)?);
    }
    Ok(())
}
