ghost use Rattle.std.specs.Prelude.{◌≡◌, ◌⊎◌, Some, None, map, IfOk, IfErr};
ghost use Rattle.arch_types.specs.Tree.{metas_of};
ghost use Rattle.lut_widths.specs.Fields.{UsesOfMode, UsesOfPbType};
ghost use Rattle.meta_said.specs.Owners.{Says};
ghost use Rattle.meta_block.specs.declared.error.MetaError.TheVariants.{LutWidth, OutOfMemory};
ghost use Rattle.meta_block.specs.Ways.{way_text};
ghost use Rattle.meta_block.specs.Owners.{SaysOwn, RefusesOwn, RefusesTexts};

use crate::error::{MetaError, owner_error};
use crate::way::way_name;
use arch_types::{Meta, Mode, PbType};
use lut_widths::{mode_misfit, pb_type_misfit};
use meta_said::{OwnerMeta, read_owner};
use std::alloc::Global;
use vtr_base::Text;

/// What the metadata of a pb_type says, at the end of the way.
pub(crate) fn pb_type_said(
    alloc: Global,
    way: &[&Text],
    block: &PbType,
) -> Result<OwnerMeta, MetaError>
    ensures ok { IfOk result (λ said. SaysOwn (Some block.now.count) block.now.metas
        (λ fields. UsesOfPbType block.now fields) said) }
    ensures refused { IfErr result (λ e. (e ≡ OutOfMemory)
        ⊎ RefusesOwn (way_text (map (λ n. n.now) way.now)) (Some block.now.count) block.now.metas
        (λ fields. UsesOfPbType block.now fields) e) }
{
    let said = texts_said(alloc, way, block.metas.as_slice(), Some(block.count))?;
    if let Some(fields) = &said.luts {
        if let Some(line) = pb_type_misfit(alloc, block, fields)? {
            return Err(width_error(alloc, way, line));
        }
    }
    Ok(said)
}

/// What the metadata of a mode says, at the end of the way.
pub(crate) fn mode_said(alloc: Global, way: &[&Text], mode: &Mode) -> Result<OwnerMeta, MetaError>
    ensures ok { IfOk result (λ said. SaysOwn None (metas_of mode.now)
        (λ fields. UsesOfMode mode.now fields) said) }
    ensures refused { IfErr result (λ e. (e ≡ OutOfMemory)
        ⊎ RefusesOwn (way_text (map (λ n. n.now) way.now)) None (metas_of mode.now)
        (λ fields. UsesOfMode mode.now fields) e) }
{
    let said = texts_said(alloc, way, mode.metas.as_slice(), None)?;
    if let Some(fields) = &said.luts {
        if let Some(line) = mode_misfit(alloc, mode, fields)? {
            return Err(width_error(alloc, way, line));
        }
    }
    Ok(said)
}

/// What the texts of an owner say.
fn texts_said(
    alloc: Global,
    way: &[&Text],
    metas: &[Meta],
    count: Option<u32>,
) -> Result<OwnerMeta, MetaError>
    ensures ok { IfOk result (λ said. Says count metas.now said) }
    ensures refused { IfErr result (λ e. (e ≡ OutOfMemory)
        ⊎ RefusesTexts (way_text (map (λ n. n.now) way.now)) count metas.now e) }
{
    match read_owner(alloc, metas, count) {
        Ok(said) => Ok(said),
        Err(e) => Err(owner_error(alloc, way, e)),
    }
}

/// What is told of a line of an owner's `fasm_lut` whose field has the width of no table.
fn width_error(alloc: Global, way: &[&Text], line: u32) -> MetaError
    ensures { (result ≡ OutOfMemory)
        ⊎ (result ≡ LutWidth (way_text (map (λ n. n.now) way.now)) line) }
{
    match way_name(alloc, way) {
        Ok(owner) => MetaError::LutWidth { owner, line },
        Err(_) => MetaError::OutOfMemory,
    }
}
