ghost use Rattle.std.specs.Prelude.{◌≡◌, ◌++◌, ◌∷◌, [], map, length, List, IfOk, OnOk};
ghost use Rattle.arch_types.specs.declared.block.PbType.{PbType as Tree};
ghost use Rattle.lut_widths.specs.Tables.{AreReaches};

use crate::reach::Reach;
use crate::sizes::kid_sizes;
use arch_types::PbType;
use names::LentNames;
use std::alloc::{AllocError, Global};

/// Where LUTs stand in children, by the children's names.
#[derive(Drop)]
pub(crate) struct ReachTable<'a> {
    pub(crate) names: LentNames<'a>,
    pub(crate) reaches: Vec<Reach>,
}

impl<'a> ReachTable<'a> {
    /// The table of these children.
    pub(crate) fn new(alloc: Global, kids: &[&'a PbType]) -> Result<ReachTable<'a>, AllocError>
        ensures { IfOk result (λ t.
            AreReaches (map (λ k. k.now) kids.now) t.names t.reaches.items) }
    {
        let mut table = ReachTable {
            names: LentNames::new(alloc),
            reaches: Vec::new(alloc),
        };
        for kid in kids {
            table.add(*kid)?;
        }
        Ok(table)
    }

    /// Adds a child. More than 2^32 names are told as want of memory.
    fn add(&mut self, kid: &'a PbType) -> Result<(), AllocError>
        requires { length self.old.reaches.items ≡ length self.old.names }
        ensures { OnOk result ((kids : List Tree)
            → AreReaches kids self.old.names self.old.reaches.items
            → AreReaches (kids ++ kid.now ∷ []) self.new.names self.new.reaches.items) }
    {
        self.names.law();
        let sizes = kid_sizes(kid);
        match self.names.find(kid.name.as_bytes()) {
            Some(number) => {
                let reach = self.reaches[number as usize];
                self.reaches[number as usize] = reach.with_sizes(sizes, kid.count);
                Ok(())
            }
            None => {
                if self.names.count() == u32::MAX {
                    return Err(AllocError);
                }
                self.names.add(kid.name.as_bytes())?;
                self.reaches
                    .push(Reach::nowhere().with_sizes(sizes, kid.count))?;
                Ok(())
            }
        }
    }
}
