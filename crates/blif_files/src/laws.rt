ghost use Rattle.blif_files.specs.Laws.{HasOneModel, HasOneRefusal, NeverBoth};

/// Tells a caller's proof that a file says one model, or is refused for one reason, and never both.
/// It does nothing.
pub fn one_file()
    ensures model { HasOneModel }
    ensures refusal { HasOneRefusal }
    ensures never { NeverBoth }
{
    blif_lines::one_reading();
    model_once::one_model();
}
