ghost use Rattle.std.specs.Prelude.{◌≡◌, map, IfOk};
ghost use Rattle.arch_build.specs.Said.{said_arch, said_models, said_blocks, said_tiles, said_layouts};
ghost use Rattle.arch_types.specs.Models.{model_names};
ghost use Rattle.arch_types.specs.Tree.{block_names};

use crate::block::push_list;
use crate::layout::push_layouts;
use crate::model::push_models;
use crate::places::NamePlaces;
use crate::tile::push_tiles;
use arch_types::{ArchParts, CellModel, Layout, PbType, Tile};
use elem_text::Elem;
use sqlite_items::Items;
use std::alloc::{AllocError, Global};

/// What the root element of an architecture file says (VTR architecture reference): its models,
/// tiles, fixed layouts and block types, in file order. It tests no rule: an element that breaks
/// one says something too. A site or a box whose block type or model isn't there has the number one
/// past the last.
pub fn arch_said(alloc: Global, root: &Elem) -> Result<ArchParts, AllocError>
    ensures { IfOk result (λ a. a ≡ said_arch root.now) }
{
    let models = models_in(alloc, root)?;
    let blocks = blocks_in(alloc, models.as_slice(), root)?;
    let tiles = tiles_in(alloc, blocks.as_slice(), root)?;
    let layouts = layouts_in(alloc, root)?;
    Ok(ArchParts {
        models,
        tiles,
        layouts,
        blocks,
    })
}

fn models_in(alloc: Global, root: &Elem) -> Result<Items<CellModel>, AllocError>
    ensures { IfOk result (λ models. models ≡ said_models root.now) }
{
    let mut models = Items::new(alloc);
    for list in root.kids.as_slice() {
        push_models(alloc, &mut models, list)?;
    }
    Ok(models)
}

fn blocks_in(alloc: Global, models: &[CellModel], root: &Elem) -> Result<Items<PbType>, AllocError>
    ensures { IfOk result (λ blocks. blocks ≡ said_blocks (model_names models.now) root.now) }
{
    let places = NamePlaces::of_models(alloc, models)?;
    blocks_with(alloc, &places, root)
}

/// The block types, with the models of boxes by their places among these names.
fn blocks_with(
    alloc: Global,
    models: &NamePlaces<'_>,
    root: &Elem,
) -> Result<Items<PbType>, AllocError>
    ensures { IfOk result (λ blocks. blocks ≡ said_blocks models.now root.now) }
{
    let mut blocks = Items::new(alloc);
    for list in root.kids.as_slice() {
        push_list(alloc, models, &mut blocks, list)?;
    }
    Ok(blocks)
}

fn tiles_in(alloc: Global, blocks: &[PbType], root: &Elem) -> Result<Items<Tile>, AllocError>
    ensures { IfOk result (λ tiles. tiles ≡ said_tiles (block_names blocks.now) root.now) }
{
    let places = NamePlaces::of_blocks(alloc, blocks)?;
    tiles_with(alloc, &places, root)
}

/// The tiles, with the block types of sites by their places among these names.
fn tiles_with(
    alloc: Global,
    blocks: &NamePlaces<'_>,
    root: &Elem,
) -> Result<Items<Tile>, AllocError>
    ensures { IfOk result (λ tiles. tiles ≡ said_tiles blocks.now root.now) }
{
    let mut tiles = Items::new(alloc);
    for list in root.kids.as_slice() {
        push_tiles(alloc, blocks, &mut tiles, list)?;
    }
    Ok(tiles)
}

fn layouts_in(alloc: Global, root: &Elem) -> Result<Items<Layout>, AllocError>
    ensures { IfOk result (λ layouts. layouts ≡ said_layouts root.now) }
{
    let mut layouts = Items::new(alloc);
    for list in root.kids.as_slice() {
        push_layouts(alloc, &mut layouts, list)?;
    }
    Ok(layouts)
}
