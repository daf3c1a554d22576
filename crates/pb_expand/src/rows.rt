ghost use Rattle.std.specs.Prelude.{◌≡◌, ◌≤◌, ◌<◌, ◌+◌, ◌-◌, ◌^◌, ◌∷◌, ◌++◌, [], IfOk, OnOk, IsErrOf, length, map, take, drop, slice_index_or};
ghost use Rattle.arch_types.specs.Address.{below, copies};
ghost use Rattle.pb_expand.specs.Rows.{addresses, moved, IsTree, GoesOn, EndsWith};
ghost use Rattle.pb_expand.specs.declared.error.SizeError.{SizeError};

use crate::error::SizeError;
use crate::{PbIx, Step};
use arch_types::{Kind, PbType};
use std::alloc::AllocError;

/// The rows of a block type have at most one less than its 2^20 instances.
const MOST_ROWS: usize = 1048575;

/// A list that is short enough for its places to be numbered by 32 bits. A longer one is told as
/// want of memory.
pub(crate) fn short<T>(items: &[T]) -> Result<&[T], AllocError>
    ensures { IfOk result (λ r. (r.now ≡ items.now) × (length r.now < 2 ^ 32)) }
{
    if items.len() > u32::MAX as usize {
        return Err(AllocError);
    }
    Ok(items)
}

/// Adds a row, and gives the number of its instance.
fn push_row(rows: &mut Vec<Step>, step: Step) -> Result<PbIx, SizeError>
    ensures added { OnOk result (rows.new.items ≡ rows.old.items ++ step ∷ []) }
    ensures number { IfOk result (λ n. n.0 ≡ length rows.new.items) }
    ensures few { OnOk result (length rows.new.items ≤ 1048575) }
    ensures many { IsErrOf result SizeError.TooMany → 1048575 ≤ length rows.old.items }
{
    if rows.len() >= MOST_ROWS {
        return Err(SizeError::TooMany);
    }
    rows.push(step)?;
    Ok(PbIx(rows.len() as u32))
}

/// Adds an instance's own row, and copies of the rows from the other instance's number up to
/// `end`, whose parents stand as far behind this instance as theirs behind that one.
fn push_copy(rows: &mut Vec<Step>, own: Step, other: PbIx, end: usize) -> Result<(), SizeError>
    requires tree { IsTree rows.old.items }
    requires there { other.0 ≤ end }
    requires inside { end ≤ length rows.old.items }
    ensures added { OnOk result (rows.new.items ≡ rows.old.items ++ own ∷ map
        (moved (length rows.old.items + 1 - other.0)) (drop other.0 (take end rows.old.items))) }
    ensures few { OnOk result (length rows.new.items ≤ 1048575) }
    ensures many { IsErrOf result SizeError.TooMany → 1048575 < length rows.old.items + 1
        + (end - other.0) }
{
    let number = push_row(rows, own)?;
    let further = number.0 - other.0;
    for place in other.0 as usize..end {
        let row = rows[place];
        let copy = Step {
            parent: PbIx(row.parent.0 + further),
            mode: row.mode,
            child: row.child,
            instance: row.instance,
        };
        push_row(rows, copy)?;
    }
    Ok(())
}

/// Adds the rows of the other instances of a child, each followed by those below it: those of the
/// first instance, whose own row is `step`, stand at the end.
fn push_copies(rows: &mut Vec<Step>, step: Step, first: PbIx, kid: &PbType) -> Result<(), SizeError>
    requires tree { IsTree rows.old.items }
    requires first { EndsWith rows.old.items step first.0 kid.now.kind }
    ensures tree { OnOk result (IsTree rows.new.items) }
    ensures behind { OnOk result (GoesOn rows.old.items rows.new.items step.parent.0) }
    ensures added { OnOk result (addresses rows.new.items ≡ addresses rows.old.items ++ copies
        (λ a. below kid.now.kind a) step.mode step.child 1 (kid.now.count - 1)
        (slice_index_or (addresses rows.old.items) step.parent.0 [])) }
    ensures few { OnOk result (length rows.old.items ≤ 1048575 → length rows.new.items ≤ 1048575) }
    ensures many { IsErrOf result SizeError.TooMany → 1048575 < length rows.old.items + length
        (copies (λ a. below kid.now.kind a) step.mode step.child 1 (kid.now.count - 1)
        (slice_index_or (addresses rows.old.items) step.parent.0 [])) }
{
    let end = rows.len();
    for instance in 1..kid.count {
        let own = Step {
            parent: step.parent,
            mode: step.mode,
            child: step.child,
            instance,
        };
        push_copy(rows, own, first, end)?;
    }
    Ok(())
}

/// Adds the rows of all instances below instance `here`, in preorder. The tree is gone through for
/// the first instance of each child alone: the rows of the others are copies of its rows.
pub(crate) fn push_below(rows: &mut Vec<Step>, here: PbIx, block: &PbType) -> Result<(), SizeError>
    requires tree { IsTree rows.old.items }
    requires there { here.0 ≤ length rows.old.items }
    ensures tree { OnOk result (IsTree rows.new.items) }
    ensures behind { OnOk result (GoesOn rows.old.items rows.new.items here.0) }
    ensures added { OnOk result (addresses rows.new.items ≡ addresses rows.old.items ++ below
        block.now.kind (slice_index_or (addresses rows.old.items) here.0 [])) }
    ensures few { OnOk result (length rows.old.items ≤ 1048575 → length rows.new.items ≤ 1048575) }
    ensures many { IsErrOf result SizeError.TooMany → 1048575 < length rows.old.items + length
        (below block.now.kind (slice_index_or (addresses rows.old.items) here.0 [])) }
{
    match &block.kind {
        Kind::InPad | Kind::OutPad | Kind::Lut | Kind::Latch | Kind::Cell(_) => {}
        Kind::Modes(modes) => {
            for (mode, inside) in short(modes.as_slice())?.iter().enumerate() {
                for (child, kid) in short(inside.kids.as_slice())?.iter().enumerate() {
                    if kid.count > 0 {
                        let step = Step {
                            parent: here,
                            mode: mode as u32,
                            child: child as u32,
                            instance: 0,
                        };
                        let first = push_row(rows, step)?;
                        push_below(rows, first, kid)?;
                        push_copies(rows, step, first, kid)?;
                    }
                }
            }
        }
    }
    Ok(())
}
