ghost use Rattle.std.specs.Prelude.{◌≡◌, ◌++◌, ◌↔◌, ◌⊎◌, [], map, List, IfOk, OnOk};
ghost use Rattle.vtr_base.specs.Lists.{Has};
ghost use Rattle.arch_types.specs.Tree.{kids_of};
ghost use Rattle.arch_types.specs.declared.block.PbType.{PbType as Tree};
ghost use Rattle.lut_widths.specs.Tables.{AreOpenKids, IsKidOf};

use arch_types::{Mode, PbType};
use meta_said::holds_luts;
use std::alloc::{AllocError, Global};

/// The children of the modes that don't hold LUTs themselves.
pub(crate) fn open_kids(alloc: Global, modes: &[Mode]) -> Result<Vec<&PbType>, AllocError>
    ensures { IfOk result (λ kids. AreOpenKids modes.now (map (λ k. k.now) kids.items)) }
{
    let mut kids = Vec::new(alloc);
    for mode in modes {
        push_open(&mut kids, mode)?;
    }
    Ok(kids)
}

/// Appends the children of a mode, unless it holds LUTs itself.
fn push_open<'a>(kids: &mut Vec<&'a PbType>, mode: &'a Mode) -> Result<(), AllocError>
    ensures { OnOk result ((kid : Tree) → Has (map (λ k. k.now) kids.new.items) kid
        ↔ (Has (map (λ k. k.now) kids.old.items) kid ⊎ IsKidOf mode.now kid)) }
{
    if holds_luts(mode.metas.as_slice()) {
        return Ok(());
    }
    push_kids(kids, mode)?;
    Ok(())
}

/// Appends the children of a mode.
pub(crate) fn push_kids<'a>(kids: &mut Vec<&'a PbType>, mode: &'a Mode) -> Result<(), AllocError>
    ensures { OnOk result (map (λ k. k.now) kids.new.items
        ≡ map (λ k. k.now) kids.old.items ++ kids_of mode.now) }
{
    for kid in mode.kids.as_slice() {
        kids.push(kid)?;
    }
    Ok(())
}
