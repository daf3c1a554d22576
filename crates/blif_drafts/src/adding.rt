ghost use Rattle.std.specs.Prelude.{◌≡◌, ◌≤◌, ◌⊎◌, List, length, IfErr, OnOk};
ghost use Rattle.arch_types.specs.declared.arch.CellModel.{CellModel};
ghost use Rattle.blif_elems.specs.Seen.{texts};
ghost use Rattle.blif_elems.specs.Statements.{says_inputs, says_outputs, says_names, says_latch};
ghost use Rattle.blif_errors.specs.declared.error.BlifError.TheVariants.{OutOfMemory};
ghost use Rattle.blif_parts.specs.Models.{ModelSaid};
ghost use Rattle.blif_parts.specs.Refusals.{CantAdd};
ghost use Rattle.blif_drafts.specs.Seen.{Grows, Holds};

use crate::Draft;
use crate::making::{make_inputs, make_latch, make_names, make_outputs};
use crate::opening::{open_latch, open_lut};
use blif_errors::BlifError;
use std::alloc::Global;
use vtr_base::Place;

impl Draft {
    /// Adds the nets of `.inputs`.
    pub(crate) fn add_inputs(
        &mut self,
        alloc: Global,
        nets: &[&str],
        place: Place,
    ) -> Result<(), BlifError>
        ensures added { OnOk result ((models : List CellModel) (m : ModelSaid)
            → Holds m self.old → Grows models m (says_inputs (texts nets.now)) self.new) }
        ensures refused { IfErr result (λ e. (e ≡ OutOfMemory)
            ⊎ ((models : List CellModel) (m : ModelSaid) → Holds m self.old
            → CantAdd models m (says_inputs (texts nets.now)) place e)) }
    {
        let numbers = make_inputs(alloc, &mut self.book, nets, place)?;
        self.inputs.append(numbers)?;
        Ok(())
    }

    /// Adds the nets of `.outputs`.
    pub(crate) fn add_outputs(
        &mut self,
        alloc: Global,
        nets: &[&str],
        place: Place,
    ) -> Result<(), BlifError>
        ensures added { OnOk result ((models : List CellModel) (m : ModelSaid)
            → Holds m self.old → Grows models m (says_outputs (texts nets.now)) self.new) }
        ensures refused { IfErr result (λ e. (e ≡ OutOfMemory)
            ⊎ ((models : List CellModel) (m : ModelSaid) → Holds m self.old
            → CantAdd models m (says_outputs (texts nets.now)) place e)) }
    {
        let numbers = make_outputs(alloc, &mut self.book, nets, place)?;
        self.outputs.append(numbers)?;
        Ok(())
    }

    /// Adds a `.names` without rows.
    pub(crate) fn add_names(
        &mut self,
        alloc: Global,
        inputs: &[&str],
        output: &str,
        place: Place,
    ) -> Result<(), BlifError>
        requires { length inputs.now ≤ 8 }
        ensures added { OnOk result ((models : List CellModel) (m : ModelSaid) → Holds m self.old
            → Grows models m (says_names (texts inputs.now) output.now) self.new) }
        ensures refused { IfErr result (λ e. (e ≡ OutOfMemory)
            ⊎ ((models : List CellModel) (m : ModelSaid) → Holds m self.old
            → CantAdd models m (says_names (texts inputs.now) output.now) place e)) }
    {
        let (ins, out) = make_names(alloc, &mut self.book, inputs, output, place)?;
        let next = open_lut(alloc, output, ins, out)?;
        self.elements.open(next)?;
        Ok(())
    }

    /// Adds a `.latch`.
    pub(crate) fn add_latch(
        &mut self,
        alloc: Global,
        loaded: &str,
        made: &str,
        control: &str,
        place: Place,
    ) -> Result<(), BlifError>
        ensures added { OnOk result ((models : List CellModel) (m : ModelSaid) → Holds m self.old
            → Grows models m (says_latch loaded.now made.now control.now) self.new) }
        ensures refused { IfErr result (λ e. (e ≡ OutOfMemory)
            ⊎ ((models : List CellModel) (m : ModelSaid) → Holds m self.old
            → CantAdd models m (says_latch loaded.now made.now control.now) place e)) }
    {
        let nets = make_latch(alloc, &mut self.book, loaded, made, control, place)?;
        let next = open_latch(alloc, made, nets)?;
        self.elements.open(next)?;
        Ok(())
    }
}
