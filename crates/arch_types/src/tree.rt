ghost use Rattle.std.specs.Prelude.{◌≡◌, ◌++◌, map, IfOk, OnOk};
ghost use Rattle.arch_types.specs.Preorder.{preorder};

use crate::{Kind, PbType};
use std::alloc::{AllocError, Global};

/// The pb_types of a block type's tree in preorder, so that each comes before those in its modes.
/// One that its parent has several times is listed once.
pub fn walk(alloc: Global, block: &PbType) -> Result<Vec<&PbType>, AllocError>
    ensures { IfOk result (λ found. map (λ r. r.now) found.items ≡ preorder block.now) }
{
    let mut found = Vec::new(alloc);
    walk_into(&mut found, block)?;
    Ok(found)
}

/// Appends the pb_types of a tree in preorder.
fn walk_into<'a>(found: &mut Vec<&'a PbType>, block: &'a PbType) -> Result<(), AllocError>
    ensures { OnOk result (map (λ r. r.now) found.new.items ≡ map (λ r. r.now) found.old.items
        ++ preorder block.now) }
{
    found.push(block)?;
    match &block.kind {
        Kind::InPad | Kind::OutPad | Kind::Lut | Kind::Latch | Kind::Cell(_) => {}
        Kind::Modes(modes) => {
            for mode in modes.as_slice() {
                for kid in mode.kids.as_slice() {
                    walk_into(found, kid)?;
                }
            }
        }
    }
    Ok(())
}
