ghost use Rattle.model_once.specs.Laws.{HasOneModel, HasOneParts, HasOneRefusal, NeverBoth};

/// Tells a caller's proof that lines say one model, or are refused for one reason, and never both,
/// and that a model has one list of parts. It does nothing.
pub fn one_model()
    ensures model { HasOneModel }
    ensures refusal { HasOneRefusal }
    ensures never { NeverBoth }
    ensures parts { HasOneParts }
{
    blif_phases::one_reading();
    blif_books::one_book();
    blif_pins::one_reading();
    blif_covers::one_table();
}
