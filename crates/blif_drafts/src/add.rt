ghost use Rattle.std.specs.Prelude.{◌≡◌, ◌⊎◌, List, IfErr, OnOk};
ghost use Rattle.arch_types.specs.declared.arch.CellModel.{CellModel};
ghost use Rattle.blif_elems.specs.Seen.{said, texts};
ghost use Rattle.blif_elems.specs.Statements.{says_param, says_row};
ghost use Rattle.blif_errors.specs.declared.error.BlifError.TheVariants.{OutOfMemory};
ghost use Rattle.blif_parts.specs.Models.{ModelSaid};
ghost use Rattle.blif_parts.specs.Refusals.{CantAdd};
ghost use Rattle.blif_drafts.specs.Seen.{Grows, Holds, IsNarrow};

use crate::Draft;
use blif_elems::Statement;
use blif_errors::BlifError;
use blif_pins::BoxModels;
use std::alloc::Global;
use vtr_base::Place;

impl Draft {
    /// Adds what a line of the model says whose first word stands at this place. After a refusal
    /// the draft is of no use.
    pub fn add(
        &mut self,
        alloc: Global,
        models: &BoxModels<'_>,
        statement: &Statement<'_>,
        place: Place,
    ) -> Result<(), BlifError>
        requires { IsNarrow (said statement.now) }
        ensures added { OnOk result ((m : ModelSaid) → Holds m self.old
            → Grows models.now m (said statement.now) self.new) }
        ensures refused { IfErr result (λ e. (e ≡ OutOfMemory)
            ⊎ ((m : ModelSaid) → Holds m self.old
            → CantAdd models.now m (said statement.now) place e)) }
    {
        match statement {
            Statement::Nothing => Ok(()),
            Statement::Model(_) => Ok(()),
            Statement::Inputs(nets) => self.add_inputs(alloc, nets, place),
            Statement::Outputs(nets) => self.add_outputs(alloc, nets, place),
            Statement::Names { inputs, output } => self.add_names(alloc, inputs, output, place),
            Statement::Latch {
                loaded,
                made,
                control,
            } => self.add_latch(alloc, loaded, made, control, place),
            Statement::Box { model, pins } => self.add_box(alloc, models, model, pins, place),
            Statement::Param { name, value } => self.add_param(alloc, name, value, place),
            Statement::Passed => Ok(()),
            Statement::End => Ok(()),
            Statement::Row(words) => self.add_row(alloc, words, place),
        }
    }

    /// Gives a parameter of the last box a value.
    fn add_param(
        &mut self,
        alloc: Global,
        name: &str,
        value: &str,
        place: Place,
    ) -> Result<(), BlifError>
        ensures added { OnOk result ((models : List CellModel) (m : ModelSaid) → Holds m self.old
            → Grows models m (says_param name.now value.now) self.new) }
        ensures refused { IfErr result (λ e. (e ≡ OutOfMemory)
            ⊎ ((models : List CellModel) (m : ModelSaid) → Holds m self.old
            → CantAdd models m (says_param name.now value.now) place e)) }
    {
        self.elements.put_param(alloc, name, value, place)
    }

    /// Adds a row to the last `.names`.
    fn add_row(&mut self, alloc: Global, words: &[&str], place: Place) -> Result<(), BlifError>
        ensures added { OnOk result ((models : List CellModel) (m : ModelSaid) → Holds m self.old
            → Grows models m (says_row (texts words.now)) self.new) }
        ensures refused { IfErr result (λ e. (e ≡ OutOfMemory)
            ⊎ ((models : List CellModel) (m : ModelSaid) → Holds m self.old
            → CantAdd models m (says_row (texts words.now)) place e)) }
    {
        self.elements.put_row(alloc, words, place)
    }
}
