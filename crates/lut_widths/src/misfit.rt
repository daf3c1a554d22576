ghost use Rattle.std.specs.Prelude.{◌≡◌, IfOk, MatchOption};
ghost use Rattle.lut_widths.specs.Fields.{IsLeast, Misfits, UsesOfMode, UsesOfPbType, width_of};
ghost use Rattle.lut_widths.specs.Sizes.{SizesMisfit};

use crate::kids::{open_kids, push_kids};
use crate::lines::{bits_of, least_misfit};
use crate::sizes::{LutSizes, held_sizes, kids_sizes};
use arch_types::{Kind, Mode, PbType};
use meta_lines::LineField;
use meta_said::LutFields;
use std::alloc::{AllocError, Global};

/// The least line of a pb_type's `fasm_lut`, which says these fields, that some LUT uses whose
/// table has another number of bits than the line's field; nothing where all widths fit. It takes
/// the time of one walk over the pb_types that no nearer owner holds, however many instances they
/// have.
pub fn pb_type_misfit(
    alloc: Global,
    block: &PbType,
    fields: &LutFields,
) -> Result<Option<u32>, AllocError>
    ensures { IfOk result (λ least. IsLeast (Misfits (UsesOfPbType block.now fields.now)) least) }
{
    match fields {
        LutFields::One(field) => Ok(one_misfit(held_sizes(block), field)),
        LutFields::Children(lines) => match &block.kind {
            Kind::Modes(modes) => {
                let kids = open_kids(alloc, modes.as_slice())?;
                let least = least_misfit(alloc, kids.as_slice(), lines.as_slice())?;
                Ok(least)
            }
            Kind::InPad | Kind::OutPad | Kind::Lut | Kind::Latch | Kind::Cell(_) => Ok(None),
        },
    }
}

/// The same of a mode's `fasm_lut`.
pub fn mode_misfit(
    alloc: Global,
    mode: &Mode,
    fields: &LutFields,
) -> Result<Option<u32>, AllocError>
    ensures { IfOk result (λ least. IsLeast (Misfits (UsesOfMode mode.now fields.now)) least) }
{
    match fields {
        LutFields::One(field) => Ok(one_misfit(kids_sizes(mode.kids.as_slice()), field)),
        LutFields::Children(lines) => {
            let mut kids = Vec::new(alloc);
            push_kids(&mut kids, mode)?;
            let least = least_misfit(alloc, kids.as_slice(), lines.as_slice())?;
            Ok(least)
        }
    }
}

/// The line of the one field, where some LUT of these sizes has no table of so many bits.
fn one_misfit(sizes: LutSizes, field: &LineField) -> Option<u32>
    ensures { MatchOption result (SizesMisfit sizes (width_of field.now.field) → ⊥)
        (λ line. (line ≡ field.now.line) × SizesMisfit sizes (width_of field.now.field)) }
{
    if sizes.misfit(bits_of(&field.field)) {
        Some(field.line)
    } else {
        None
    }
}
