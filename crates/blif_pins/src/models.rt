ghost use Rattle.std.specs.Prelude.{◌≡◌, ◌<◌, ℕ, List, Some, length, map, slice_get, IfOk, MatchOption};
ghost use Rattle.std.specs.List.{All};
ghost use Rattle.arch_types.specs.declared.arch.CellModel.{CellModel as Said};
ghost use Rattle.arch_types.specs.Models.{AreModels, model_names};
ghost use Rattle.vtr_base.specs.Lists.{IsFirstPlace};
ghost use Rattle.blif_boxes.specs.Pins.{PinSaid};
ghost use Rattle.blif_elems.specs.Seen.{texts};
ghost use Rattle.blif_pins.specs.Pins.{ArePins};
ghost use Rattle.blif_pins.specs.Seen.{said, HasSide};

use crate::pins::{BoxPin, pins_of};
use crate::ports::PortTable;
use arch_types::CellModel;
use names::LentNames;
use std::alloc::{AllocError, Global};
use std::marker::Model;

/// The models of an architecture by name, each with its ports by name. Contracts see the models.
#[derive(Drop)]
pub struct BoxModels<'a> {
    names: LentNames<'a>,
    tables: Vec<PortTable<'a>>,
}

impl<'a> Model for BoxModels<'a> {
    ghost use Rattle.std.specs.Prelude.{◌≡◌, List, map};
    ghost use Rattle.arch_types.specs.declared.arch.CellModel.{CellModel as Seen};
    ghost use Rattle.arch_types.specs.Models.{model_names};

    ghost Value = { List Seen };

    ghost view = { λ m. map (λ t. t.model) m.tables.items };

    ghost invariant = { λ m. m.names ≡ model_names (map (λ t. t.model) m.tables.items) };
}

impl<'a> BoxModels<'a> {
    /// The models of an architecture. It takes time for each port.
    pub fn new(alloc: Global, models: &'a [CellModel]) -> Result<BoxModels<'a>, AllocError>
        requires { AreModels models.now }
        ensures { IfOk result (λ all. all ≡ models.now) }
    {
        Ok(BoxModels {
            names: names_of(alloc, models)?,
            tables: tables_of(alloc, models)?,
        })
    }

    /// The number of the model of this name.
    pub fn find(&self, name: &str) -> Option<u32>
        ensures { MatchOption result
            ((n : ℕ) → slice_get (model_names self.now) n ≡ Some name.now → ⊥)
            (IsFirstPlace (model_names self.now) name.now) }
    {
        self.names.find(name.as_bytes())
    }

    /// The pins that words behind the model's name say, if they do.
    pub fn read_pins<'w>(
        &self,
        alloc: Global,
        model: u32,
        words: &[&'w str],
    ) -> Result<Option<Vec<BoxPin<'w>>>, AllocError>
        requires { model < length self.now }
        ensures { IfOk result (λ found. (m : Said) → slice_get self.now model ≡ Some m
            → MatchOption found ((pins : List PinSaid) → ArePins m (texts words.now) pins → ⊥)
            (λ pins. ArePins m (texts words.now) (map said pins.items)
            × All (HasSide m) pins.items)) }
    {
        pins_of(alloc, &self.tables[model as usize], words)
    }
}

/// The models' names.
fn names_of<'a>(alloc: Global, models: &'a [CellModel]) -> Result<LentNames<'a>, AllocError>
    requires { AreModels models.now }
    ensures { IfOk result (λ names. names ≡ model_names models.now) }
{
    let mut names = LentNames::new(alloc);
    for model in models {
        names.add(model.name.as_bytes())?;
    }
    Ok(names)
}

/// Each model with its ports by name.
fn tables_of<'a>(alloc: Global, models: &'a [CellModel]) -> Result<Vec<PortTable<'a>>, AllocError>
    ensures { IfOk result (λ tables. map (λ t. t.model) tables.items ≡ models.now) }
{
    let mut tables = Vec::new(alloc);
    for model in models {
        tables.push(PortTable::new(alloc, model)?)?;
    }
    Ok(tables)
}
