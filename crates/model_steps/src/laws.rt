ghost use Rattle.model_steps.specs.Laws.{KeepsEmpty, KeepsSteps};

/// Tells a caller's proof that a model without lines keeps what every model keeps, and that each
/// line leaves it so. It does nothing.
pub fn step_law()
    ensures empty { KeepsEmpty }
    ensures steps { KeepsSteps }
{}
