ghost use Rattle.std.specs.Prelude.{◌≡◌, ◌++◌, ◌∷◌, [], ℕ, OnOk, if◌then◌else◌};
ghost use Rattle.prog_map.specs.Groups.{GetsNumber, grouped, same_mode, mode_ix};

use pb_expand::PbIx;
use sqlite_items::Items;
use std::alloc::{AllocError, Global};
use std::collections::HashMap;

/// An instance and one of its modes.
#[derive(Clone, Copy, Debug, PartialEq, Eq, Hash)]
pub struct ModeAt {
    pub pb: PbIx,
    pub mode: u32,
}

/// Numbers by the mode to which they belong, in the order in which they were added.
#[derive(Drop)]
pub struct Groups {
    numbers: HashMap<ModeAt, Items<u32>>,
}

impl Groups {
    pub(crate) fn new(alloc: Global) -> Groups
        ensures { (pb mode : ℕ) → grouped result.numbers pb mode ≡ [] }
    {
        Groups {
            numbers: HashMap::new(alloc),
        }
    }

    /// Adds a number to those of a mode.
    pub(crate) fn push(&mut self, alloc: Global, at: ModeAt, number: u32) -> Result<(), AllocError>
        ensures { OnOk result (GetsNumber self.old.numbers self.new.numbers
            (λ pb mode. same_mode at (mode_ix pb mode)) number) }
    {
        push_number(alloc, &mut self.numbers, at, number)
    }

    /// The numbers of a mode.
    pub fn of(&self, pb: PbIx, mode: u32) -> &[u32]
        ensures { result.now ≡ grouped self.now.numbers pb.0 mode }
    {
        match self.numbers.get(&ModeAt { pb, mode }) {
            Some(numbers) => numbers.as_slice(),
            None => &[],
        }
    }
}

/// Adds a number to those of a mode.
fn push_number(
    alloc: Global,
    groups: &mut HashMap<ModeAt, Items<u32>>,
    at: ModeAt,
    number: u32,
) -> Result<(), AllocError>
    ensures { OnOk result (GetsNumber groups.old groups.new
        (λ pb mode. same_mode at (mode_ix pb mode)) number) }
{
    match groups.get_mut(&at) {
        Some(numbers) => {
            numbers.push(number)?;
        }
        None => {
            let mut numbers = Items::new(alloc);
            numbers.push(number)?;
            groups.insert(at, numbers)?;
        }
    }
    Ok(())
}
