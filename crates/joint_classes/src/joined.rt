ghost use Rattle.std.specs.Prelude.{◌≡◌, ◌<◌, ◌-◌, ◌^◌, IfOk, length, map, All};
ghost use Rattle.joint_classes.specs.Classes.{AreClasses, AreClassesBy};
ghost use Rattle.joint_classes.specs.Members.{AreTables, IsClassOf, Reaches};

use crate::spread::spread;
use flat_tables::FlatTable;
use number_places::Numbers;
use sqlite_items::Items;
use std::alloc::{AllocError, Global};

/// The classes of the numbers below `count`: two numbers are of one class where joints lead from
/// the one to the other, whichever way round each of them stands. The numbers of a class ascend,
/// and the classes go by their first numbers. It takes n log n steps in the numbers and the joints.
pub fn classes(
    alloc: Global,
    count: u32,
    joints: &[(u32, u32)],
) -> Result<Items<Items<u32>>, AllocError>
    requires count { count < 2 ^ 32 - 1 }
    requires low { All (λ joint. (joint.0 < count) × (joint.1 < count)) joints.now }
    requires few { length joints.now < 2 ^ 32 }
    ensures { IfOk result (AreClasses count joints.now) }
{
    let turned = turned(alloc, joints)?;
    let nexts = FlatTable::from_pairs(alloc, joints, count)?;
    let prevs = FlatTable::from_pairs(alloc, turned.as_slice(), count)?;
    Ok(found(alloc, count, &nexts, &prevs)?)
}

/// The classes of the numbers below `count`, by tables of the joints of each number, one for each
/// way round.
fn found(
    alloc: Global,
    count: u32,
    nexts: &FlatTable<u32>,
    prevs: &FlatTable<u32>,
) -> Result<Items<Items<u32>>, AllocError>
    requires count { count < 2 ^ 32 - 1 }
    requires tables { AreTables nexts.now prevs.now count }
    ensures { IfOk result (AreClassesBy (Reaches nexts.now prevs.now) count) }
{
    let mut flags = vec![in alloc; false; count as usize]?;
    let seen = flags.as_mut_slice();
    let mut classes = Vec::new(alloc);
    for number in 0..count {
        if !seen[number as usize] {
            let members = spread(alloc, nexts, prevs, seen, number)?;
            classes.push(ascending(alloc, members.as_slice())?)?;
        }
    }
    Ok(Items::from_vec(classes))
}

/// The joints the other way round.
fn turned(alloc: Global, joints: &[(u32, u32)]) -> Result<Vec<(u32, u32)>, AllocError>
    ensures { IfOk result (λ turned. turned.items ≡ map (λ joint. (joint.1, joint.0)) joints.now) }
{
    joints.iter().map(|joint| (joint.1, joint.0)).collect(alloc)
}

/// The members of a class in ascending order.
fn ascending(alloc: Global, members: &[u32]) -> Result<Items<u32>, AllocError>
    requires { All (λ number. number < 2 ^ 32 - 1) members.now }
    ensures { IfOk result (λ class. IsClassOf members.now class) }
{
    let numbers = Numbers::ascending(alloc, members)?;
    Ok(Items::from_slice(alloc, numbers.as_slice())?)
}
