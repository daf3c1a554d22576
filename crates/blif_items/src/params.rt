ghost use Rattle.std.specs.Prelude.{[], List, ℕ, OnOk};
ghost use Rattle.blif_items.specs.Seen.{HoldsParams, IsPut};

use blif_nets::number_one;
use names::Names;
use sqlite_items::Items;
use std::alloc::{AllocError, Global};
use vtr_base::Text;

/// The parameters of a box, in the order in which their names were first given.
#[derive(Drop)]
pub struct Params {
    pub(crate) names: Names,
    pub(crate) items: Items<(Text, Text)>,
}

impl Params {
    /// No parameters.
    pub fn new(alloc: Global) -> Params
        ensures { HoldsParams [] result }
    {
        Params {
            names: Names::new(alloc),
            items: Items::new(alloc),
        }
    }

    /// Gives a parameter this value, in the place of one that it had.
    pub fn put(&mut self, alloc: Global, name: &str, value: &str) -> Result<(), AllocError>
        ensures { OnOk result ((params : List (List ℕ × List ℕ)) → HoldsParams params self.old
            → IsPut params name.now value.now self.new) }
    {
        let kept = Text::from_str(alloc, name)?;
        let given = Text::from_str(alloc, value)?;
        let number = number_one(&mut self.names, name)?;
        let at = number as usize;
        if at < self.items.len() {
            self.items.set(at, (kept, given));
            return Ok(());
        }
        self.items.push((kept, given))?;
        Ok(())
    }
}
