ghost use Rattle.std.specs.Prelude.{◌≡◌, ◌<◌, ◌∷◌, [], false, IfOk, OnOk, All, length, slice_index_or};
ghost use Rattle.joint_classes.specs.Members.{AreTables, AreClosed, Pushes, Spreads};

use flat_tables::FlatTable;
use std::alloc::{AllocError, Global};

/// All numbers to which joints lead from one that wasn't seen, by tables of the joints of each
/// number, one for each way round. They are seen from now on.
pub(crate) fn spread(
    alloc: Global,
    nexts: &FlatTable<u32>,
    prevs: &FlatTable<u32>,
    seen: &mut [bool],
    root: u32,
) -> Result<Vec<u32>, AllocError>
    requires tables { AreTables nexts.now prevs.now (length seen.old) }
    requires closed { AreClosed nexts.now prevs.now seen.old }
    requires low { root < length seen.old }
    requires fresh { slice_index_or seen.old root false ≡ false }
    ensures { IfOk result (λ members.
        Spreads nexts.now prevs.now root seen.old seen.new members.items) }
{
    let mut members = Vec::new(alloc);
    push_new(&mut members, seen, root)?;
    let mut at = 0;
    'members: while at < members.len() {
        let number = members[at];
        push_all(&mut members, seen, nexts.group(number))?;
        push_all(&mut members, seen, prevs.group(number))?;
        at += 1;
    }
    Ok(members)
}

/// Puts those of these numbers last that weren't seen. They are seen from now on.
fn push_all(members: &mut Vec<u32>, seen: &mut [bool], others: &[u32]) -> Result<(), AllocError>
    requires { All (λ other. other < length seen.old) others.now }
    ensures { OnOk result
        (Pushes others.now members.old.items members.new.items seen.old seen.new) }
{
    for other in others {
        push_new(members, seen, *other)?;
    }
    Ok(())
}

/// Puts a number last where it wasn't seen. It is seen from now on.
fn push_new(members: &mut Vec<u32>, seen: &mut [bool], other: u32) -> Result<(), AllocError>
    requires { other < length seen.old }
    ensures { OnOk result
        (Pushes (other ∷ []) members.old.items members.new.items seen.old seen.new) }
{
    if seen[other as usize] {
        return Ok(());
    }
    members.push(other)?;
    seen[other as usize] = true;
    Ok(())
}
