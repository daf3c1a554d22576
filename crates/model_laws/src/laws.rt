ghost use Rattle.std.specs.Prelude.{◌<◌, ◌-◌, ◌^◌, ℕ, List, length};
ghost use Rattle.arch_types.specs.declared.arch.CellModel.{CellModel};
ghost use Rattle.blif_lines.specs.Lines.{AreLines, LineSaid};
ghost use Rattle.blif_parts.specs.declared.parts.ModelParts.{ModelParts as Parts};
ghost use Rattle.blif_parts.specs.Facts.{IsModel};
ghost use Rattle.blif_parts.specs.Lines.{SayModel};
ghost use Rattle.blif_parts.specs.Models.{AreParts, ModelSaid};

/// Tells a caller's proof that the model of a file shorter than 2^32 - 1 bytes keeps all that a
/// netlist keeps, but that its atoms are few, that each net is driven, and that no cycle runs
/// through LUTs. It does nothing.
pub fn model_law()
    ensures { (models : List CellModel) (bytes : List ℕ) (ls : List LineSaid) (m : ModelSaid)
        (parts : Parts) → length bytes < 2 ^ 32 - 1 → AreLines bytes ls
        → SayModel models ls m → AreParts m parts → IsModel models parts }
{
    model_words::word_law();
    model_steps::step_law();
}
