ghost use Rattle.std.specs.Prelude.{IfOk};
ghost use Rattle.crowd_cuts.specs.Reduction.{AreMarked, IsUnmarked};

use sqlite_items::Items;
use std::alloc::{AllocError, Global};

/// Of the numbers on the right, in each of which a path would have to pass a node, the nodes that
/// don't stand on the left.
pub(crate) fn cut_of(
    alloc: Global,
    nodes: u32,
    lefts: &[u32],
    rights: &[u32],
) -> Result<Items<u32>, AllocError>
    ensures { IfOk result (IsUnmarked nodes lefts.now rights.now) }
{
    let marks = marks_of(alloc, nodes, lefts)?;
    let mut cut = Vec::new(alloc);
    for right in rights {
        if *right >= nodes {
            cut.push(*right - nodes)?;
        } else if !marks[*right as usize] {
            cut.push(*right)?;
        }
    }
    Ok(Items::from_vec(cut))
}

/// For each node whether it stands among the numbers.
fn marks_of(alloc: Global, nodes: u32, lefts: &[u32]) -> Result<Vec<bool>, AllocError>
    ensures { IfOk result (λ marks. AreMarked nodes lefts.now marks.items) }
{
    let mut marks = vec![in alloc; false; nodes as usize]?;
    for left in lefts {
        if *left < nodes {
            marks[*left as usize] = true;
        }
    }
    Ok(marks)
}
