ghost use Rattle.std.specs.Prelude.{◌≡◌, ◌≤◌, IfOk, IfErr, length};
ghost use Rattle.task_make.specs.Lists.{AreAtoms, Refuses};

use atom_lists::TaskError;
use net_types::Atom;
use number_places::Numbers;
use std::alloc::Global;

const MOST_ATOMS: usize = 4096;

/// The atoms of a list by their places, where they are at most 4,096 different atoms.
pub(crate) fn listed(alloc: Global, known: &[Atom], atoms: &[u32]) -> Result<Numbers, TaskError>
    ensures same { IfOk result (λ listed. listed ≡ atoms.now) }
    ensures fine { IfOk result (λ listed. AreAtoms known.now atoms.now) }
    ensures few { IfOk result (λ listed. length atoms.now ≤ 4096) }
    ensures refused { IfErr result (Refuses known.now atoms.now) }
{
    if atoms.len() > MOST_ATOMS {
        return Err(TaskError::TooManyAtoms);
    }
    let mut listed = Numbers::new(alloc);
    for (place, number) in atoms.iter().enumerate() {
        if *number as usize >= known.len() {
            return Err(TaskError::NoSuchAtom {
                place: place as u32,
            });
        }
        if !listed.add(*number)? {
            return Err(TaskError::Twice {
                place: place as u32,
            });
        }
    }
    listed.law();
    Ok(listed)
}
