ghost use Rattle.std.specs.Prelude.{◌≡◌, ◌++◌, map, IfOk, OnOk};
ghost use Rattle.meta_owners.specs.Owners.{seen, steps_of, mode_steps, inter_steps};

use arch_types::{Inter, Kind, Mode, PbType};
use std::alloc::{AllocError, Global};

/// A step of the walk over the owners of metadata: to an owner, or out of one. The names of the
/// owners that are open at a step are its way from the block type.
#[derive(Clone, Copy)]
pub enum OwnerStep<'a> {
    /// A pb_type is next; it is open until its end.
    PbType(&'a PbType),
    /// A mode of the pb_type that was opened last is next; it is open until its end.
    Mode(&'a Mode),
    /// An interconnect of the mode that was opened last is next.
    Inter(&'a Inter),
    EndOfMode,
    EndOfPbType,
}

/// The owners of metadata in a block type: a pb_type, then mode by mode the mode, its
/// interconnects, and each of its children with the owners in it (VTR architecture reference,
/// "Architecture metadata").
pub fn owners(alloc: Global, block: &PbType) -> Result<Vec<OwnerStep<'_>>, AllocError>
    ensures { IfOk result (λ steps. map seen steps.items ≡ steps_of block.now) }
{
    let mut steps = Vec::new(alloc);
    walk_pb_type(&mut steps, block)?;
    Ok(steps)
}

/// Appends the steps of a pb_type.
fn walk_pb_type<'a>(steps: &mut Vec<OwnerStep<'a>>, block: &'a PbType) -> Result<(), AllocError>
    ensures { OnOk result (map seen steps.new.items ≡ map seen steps.old.items ++ steps_of
        block.now) }
{
    steps.push(OwnerStep::PbType(block))?;
    match &block.kind {
        Kind::InPad | Kind::OutPad | Kind::Lut | Kind::Latch | Kind::Cell(_) => {
            steps.push(OwnerStep::EndOfPbType)?;
            Ok(())
        }
        Kind::Modes(modes) => {
            for mode in modes.as_slice() {
                open_mode(steps, mode)?;
                for kid in mode.kids.as_slice() {
                    walk_pb_type(steps, kid)?;
                }
                steps.push(OwnerStep::EndOfMode)?;
            }
            steps.push(OwnerStep::EndOfPbType)?;
            Ok(())
        }
    }
}

/// Appends a mode and its interconnects.
fn open_mode<'a>(steps: &mut Vec<OwnerStep<'a>>, mode: &'a Mode) -> Result<(), AllocError>
    ensures { OnOk result (map seen steps.new.items ≡ map seen steps.old.items ++ inter_steps
        mode.now) }
{
    steps.push(OwnerStep::Mode(mode))?;
    for inter in mode.inters.as_slice() {
        steps.push(OwnerStep::Inter(inter))?;
    }
    Ok(())
}
