ghost use Rattle.std.specs.Prelude.{◌≡◌, ◌++◌, ◌∷◌, ◌↔◌, ◌<◌, ◌^◌, [], map, length, List, IfOk, OnOk, IsTrue};
ghost use Rattle.list_laws.specs.Orders.{Once};
ghost use Rattle.arch_types.specs.declared.block.PbType.{PbType as Tree};
ghost use Rattle.meta_lines.specs.declared.types.ChildField.{ChildField as Said};
ghost use Rattle.lut_widths.specs.Fields.{IsLeast, Misfits, width_of};
ghost use Rattle.lut_widths.specs.Tables.{AreReaches, AreSeen, UsesOfLines, LineMisfits, least_with};

use crate::table::ReachTable;
use arch_types::PbType;
use indexmap::IndexSet;
use meta_lines::{ChildField, Field};
use std::alloc::{AllocError, Global};

/// An instance of a child, by the number of the child's name, that some line is for.
#[derive(Clone, Copy, Debug, PartialEq, Eq, Hash)]
pub(crate) struct SeenLine {
    pub(crate) child: u32,
    pub(crate) instance: u32,
}

/// The least line that some LUT in the children uses whose table has another number of bits than
/// the line's field.
pub(crate) fn least_misfit(
    alloc: Global,
    kids: &[&PbType],
    lines: &[ChildField],
) -> Result<Option<u32>, AllocError>
    ensures { IfOk result (λ least.
        IsLeast (Misfits (UsesOfLines (map (λ k. k.now) kids.now) lines.now)) least) }
{
    let table = ReachTable::new(alloc, kids)?;
    let mut seen = IndexSet::new(alloc);
    let mut least = None;
    for line in lines {
        let misfits = line_misfits(&table, &mut seen, line)?;
        least = with_line(misfits, least, line.line);
    }
    Ok(least)
}

/// The lesser of the two, where the line is one that counts.
fn with_line(counts: bool, least: Option<u32>, line: u32) -> Option<u32>
    ensures { result ≡ least_with counts least line }
{
    if !counts {
        return least;
    }
    match least {
        Some(other) => Some(other.min(line)),
        None => Some(line),
    }
}

/// Whether a line is the first for its instance and some LUT there has no table of so many bits.
fn line_misfits(
    table: &ReachTable<'_>,
    seen: &mut IndexSet<SeenLine>,
    line: &ChildField,
) -> Result<bool, AllocError>
    requires { length table.now.reaches.items ≡ length table.now.names }
    ensures seen { OnOk result ((kids : List Tree) (before : List Said)
        → AreReaches kids table.now.names table.now.reaches.items
        → AreSeen table.now.names before seen.old.keys
        → AreSeen table.now.names (before ++ line.now ∷ []) seen.new.keys) }
    ensures misfits { IfOk result (λ misfits. (kids : List Tree) (before : List Said)
        → AreReaches kids table.now.names table.now.reaches.items
        → AreSeen table.now.names before seen.old.keys
        → IsTrue misfits ↔ LineMisfits kids before line.now) }
{
    table.names.law();
    let Some(child) = table.names.find(line.child.as_bytes()) else {
        return Ok(false);
    };
    let place = SeenLine {
        child,
        instance: line.instance,
    };
    if seen.contains(&place) {
        return Ok(false);
    }
    seen.insert(place)?;
    let reach = table.reaches[child as usize];
    Ok(reach.misfit(line.instance, bits_of(&line.field)))
}

/// How many bits a field has.
pub(crate) fn bits_of(field: &Field) -> u64
    ensures bits { result ≡ width_of field.now }
    ensures few { result < 2 ^ 64 }
{
    (u64::from(field.hi) + 1).saturating_sub(u64::from(field.lo))
}
