ghost use Rattle.std.specs.Prelude.{IfOk, IfErr, MatchOption};
ghost use Rattle.arch_links.specs.First.{IsFirst, IsOfNone};
ghost use Rattle.arch_links.specs.Links.{AreLinked, IsUnlinked, IsUnknown, site_names, models_used};
ghost use Rattle.arch_types.specs.Models.{model_names};
ghost use Rattle.arch_types.specs.Tree.{block_names};

use crate::LinkError;
use crate::named::{first_unknown, models_used, site_names};
use crate::site::check_sites;
use arch_build::NamePlaces;
use arch_types::{ArchParts, CellModel, PbType};
use elem_text::Elem;
use std::alloc::{AllocError, Global};
use vtr_base::Text;

/// Tests the rules that tie an architecture file's parts together, in this order: the ports of
/// sites, the names of sites, the names of models. `arch` is what the root element says.
pub fn check_links(alloc: Global, root: &Elem, arch: &ArchParts) -> Result<(), LinkError>
    ensures linked { IfOk result (λ _. AreLinked root.now arch.now) }
    ensures refused { IfErr result (IsUnlinked root.now arch.now) }
{
    check_sites(alloc, arch.blocks.as_slice(), arch.tiles.as_slice())?;
    if let Some(name) = unknown_block(alloc, root, arch.blocks.as_slice())? {
        return Err(LinkError::NoSuchBlock { name });
    }
    if let Some(name) = unknown_model(alloc, root, arch.models.as_slice())? {
        return Err(LinkError::UnknownModel { name });
    }
    Ok(())
}

/// The first name of a site that is no block type's.
fn unknown_block(alloc: Global, root: &Elem, blocks: &[PbType]) -> Result<Option<Text>, AllocError>
    ensures { IfOk result (λ r. MatchOption r (IsOfNone (IsUnknown (block_names blocks.now))
        (site_names root.now)) (λ name. IsFirst (IsUnknown (block_names blocks.now))
        (site_names root.now) name)) }
{
    let known = NamePlaces::of_blocks(alloc, blocks)?;
    let names = site_names(alloc, root)?;
    first_unknown(alloc, &known, names.as_slice())
}

/// The first name of a box's model that is no model's.
fn unknown_model(
    alloc: Global,
    root: &Elem,
    models: &[CellModel],
) -> Result<Option<Text>, AllocError>
    ensures { IfOk result (λ r. MatchOption r (IsOfNone (IsUnknown (model_names models.now))
        (models_used root.now)) (λ name. IsFirst (IsUnknown (model_names models.now))
        (models_used root.now) name)) }
{
    let known = NamePlaces::of_models(alloc, models)?;
    let names = models_used(alloc, root)?;
    first_unknown(alloc, &known, names.as_slice())
}
